// Access kinds, ROM windows and the cycles of one access. Port of src/bus/wait.rs; `waitcnt` is src/bus/waitcnt.rs. The Rust's
// `WaitTables` is two values here: the waits of the ROM, an array of three windows by two kinds, and the SRAM waits. EWRAM's
// waits never change.
#![tactic(auto)]

ghost use Rattle.std.specs.Prelude.{◌≡◌, ◌≤◌};
ghost use Rattle.model.specs.Waitcnt as reg;
ghost use Rattle.model.specs.Wait as def;

use model::{AccessKind, AccessSize, RomWindow};
use waitcnt::WaitCnt;

pub mod waitcnt;

// 128 KiB: a halfword at a multiple of this is nonsequential.
pub const ROM_FORCE_N_BLOCK: u32 = 0x2_0000;

// EWRAM's waits.
pub const EWRAM_DEFAULT_WAITS: u8 = 2;

// The SRAM waits, as the Rust's `WaitTables` holds them. Ported for completeness: nothing uses it yet.
#[derive(Clone, Copy)]
pub struct WaitTables {
    pub sram_waits: u8,
}

impl WaitTables {
    // Ported for completeness: nothing calls it yet.
    pub fn power_on() -> WaitTables
        ensures { result.sram_waits ≡ reg.sram_waits reg.power_on }
    {
        WaitTables::from_waitcnt(WaitCnt::power_on())
    }

    // Ported for completeness: nothing calls it yet but `power_on`.
    pub fn from_waitcnt(register: WaitCnt) -> WaitTables
        ensures { result.sram_waits ≡ reg.sram_waits register.raw }
    {
        WaitTables {
            sram_waits: register.sram_waits(),
        }
    }

    // Ported for completeness: nothing calls it yet.
    #[tactic(auto, unfolding(model::specs::Waitcnt::rom_waits_of))]
    pub fn rom_power_on() -> [[u8; 2]; 3]
        ensures { result ≡ reg.rom_waits_of reg.power_on }
    {
        rom_waits(WaitCnt::power_on())
    }
}

// The waits of the ROM: three windows by two kinds, nonsequential and sequential.
#[tactic(auto, unfolding(model::specs::Waitcnt::rom_waits_of))]
pub fn rom_waits(register: WaitCnt) -> [[u8; 2]; 3]
    ensures { result ≡ reg.rom_waits_of register.raw }
{
    let n0 = register.rom_n_waits(RomWindow::Ws0);
    let s0 = register.rom_s_waits(RomWindow::Ws0);
    let n1 = register.rom_n_waits(RomWindow::Ws1);
    let s1 = register.rom_s_waits(RomWindow::Ws1);
    let n2 = register.rom_n_waits(RomWindow::Ws2);
    let s2 = register.rom_s_waits(RomWindow::Ws2);
    [[n0, s0], [n1, s1], [n2, s2]]
}

// `RomWindow::from_addr`: the ROM window of an address, if it has one, by its top byte.
#[tactic(auto, unfolding(model::specs::Wait::window))]
pub fn window_from_addr(addr: u32) -> Option<RomWindow>
    ensures { result ≡ def.window addr }
{
    match addr / 0x100_0000 {
        0x08 | 0x09 => Some(RomWindow::Ws0),
        0x0A | 0x0B => Some(RomWindow::Ws1),
        0x0C | 0x0D => Some(RomWindow::Ws2),
        _ => None,
    }
}

// `RomWindow::from_addr(addr).is_some()`.
pub fn in_window(addr: u32) -> bool
    ensures { result ≡ def.in_window addr }
{
    window_from_addr(addr).is_some()
}

// `AccessSize::bytes`, by a shift, since the sizes are counted from 0: every data access needs them, and a choice of three would
// be a branch that no one foretells. Of a shifted 1 the compiler knows, too, that a remainder by it is a mask.
pub fn size_bytes(size: AccessSize) -> u32
    ensures { result ≡ def.size_bytes_of size }
{
    1u32 << size as u32
}

// Back from the bytes, where they are 1, 2 or 4: the board and the sheet have bytes.
#[tactic(auto, unfolding(model::specs::Wait::access_size_of))]
pub fn access_size(bytes: u32) -> AccessSize
    ensures { result ≡ def.access_size_of bytes }
{
    match bytes {
        1 => AccessSize::Byte,
        2 => AccessSize::Half,
        _ => AccessSize::Word,
    }
}

// An address lowered to a multiple of a size.
#[tactic(auto, unfolding(model::specs::Wait::aligned))]
pub fn aligned(size: AccessSize, addr: u32) -> u32
    ensures { result ≡ def.aligned size addr }
{
    addr - addr % size_bytes(size)
}

// An access takes one cycle and its waits.
pub fn cycles_for_waits(waitstates: u8) -> u32
    ensures { result ≡ def.cycles_for_waits waitstates }
{
    1 + waitstates as u32
}

// Whether a halfword starts a block, and so is nonsequential.
pub fn rom_force_nonseq(addr: u32) -> bool
    ensures { result ≡ def.force_nonseq addr }
{
    addr % ROM_FORCE_N_BLOCK == 0
}

// The kind of an access, by whether it is the first of a row: the Rust's function, and a `From` would stand in model.
pub fn nonseq_if(first: bool) -> AccessKind
    ensures { result ≡ def.nonseq_if first }
{
    if first {
        AccessKind::Nonseq
    } else {
        AccessKind::Seq
    }
}

// The kind of an access that follows one of size `prev_size` at `prev_addr`.
#[tactic(auto, unfolding(model::specs::Wait::classify_access))]
pub fn classify_access(
    prev_addr: u32,
    prev_size: AccessSize,
    next_addr: u32,
    same_region: bool,
) -> AccessKind
    ensures { result ≡ def.classify_access prev_addr prev_size next_addr same_region }
{
    if !same_region {
        return AccessKind::Nonseq;
    }
    if in_window(next_addr) & rom_force_nonseq(next_addr) {
        return AccessKind::Nonseq;
    }
    if next_addr == prev_addr.wrapping_add(size_bytes(prev_size)) {
        return AccessKind::Seq;
    }
    AccessKind::Nonseq
}

// The waits of one halfword from ROM.
pub fn rom_half_waits(waits: [[u8; 2]; 3], window: RomWindow, kind: AccessKind) -> u8
    ensures { result ≡ def.rom_half_waits waits window kind }
{
    waits[window as usize][kind as usize]
}

// One halfword from ROM.
#[tactic(auto, unfolding(model::specs::Wait::rom_half_cycles))]
pub fn rom_half_cycles(waits: [[u8; 2]; 3], window: RomWindow, kind: AccessKind) -> u32
    ensures cycles { result ≡ def.rom_half_cycles waits window kind }
    ensures few { result ≤ 256 }
{
    cycles_for_waits(rom_half_waits(waits, window, kind))
}

// A word from ROM: two beats, the second sequential. The sum is over waits, which are bytes, so that it fits. Ported for
// completeness: nothing calls it, since what a word costs is added up beat by beat, the first by the access before it.
#[tactic(auto, unfolding(model::specs::Wait::rom_half_cycles))]
pub fn rom_word_cycles(waits: [[u8; 2]; 3], window: RomWindow, first: AccessKind) -> u32
    ensures { result ≡ def.rom_word_cycles waits window first }
{
    let one = rom_half_waits(waits, window, first);
    let two = rom_half_waits(waits, window, AccessKind::Seq);
    cycles_for_waits(one) + cycles_for_waits(two)
}

// One halfword from ROM, under the rule of the 128 KiB block.
#[tactic(auto, unfolding(model::specs::Wait::kind_at, model::specs::Wait::rom_half_cycles))]
pub fn rom_half_cycles_at(
    waits: [[u8; 2]; 3],
    addr: u32,
    window: RomWindow,
    kind: AccessKind,
) -> u32
    ensures cycles { result ≡ def.rom_half_cycles_at waits addr window kind }
    ensures few { result ≤ 256 }
{
    if rom_force_nonseq(addr) {
        rom_half_cycles(waits, window, AccessKind::Nonseq)
    } else {
        rom_half_cycles(waits, window, kind)
    }
}

// SRAM's bus has 8 bits: each access is one byte's.
pub fn sram_byte_cycles(sram_waits: u8) -> u32
    ensures { result ≡ def.sram_byte_cycles sram_waits }
{
    cycles_for_waits(sram_waits)
}

// The beats of an access on a bus of 16 bits: without waits, its cycles.
fn beats_on_16(size: AccessSize) -> u32
    ensures { result ≡ def.video_ram_cycles size }
{
    match size {
        AccessSize::Byte | AccessSize::Half => 1,
        AccessSize::Word => 2,
    }
}

// Two waits.
pub fn ewram_cycles(size: AccessSize) -> u32
    ensures { result ≡ def.ewram_cycles size }
{
    beats_on_16(size) * cycles_for_waits(EWRAM_DEFAULT_WAITS)
}

// BIOS, IWRAM, the registers and OAM have no waits.
pub fn fixed_fast_cycles() -> u32
    ensures { result ≡ def.fixed_fast_cycles }
{
    1
}

// Palette and VRAM: no waits.
pub fn video_ram_cycles(size: AccessSize) -> u32
    ensures { result ≡ def.video_ram_cycles size }
{
    beats_on_16(size) * cycles_for_waits(0)
}
