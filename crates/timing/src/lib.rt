// The price of an instruction and of a data access. Port of src/cpu/timing.rs; `disable_bug` is src/bus/disable_bug.rs. The data
// price is added (docs/RULES.md, "What a data access costs"). The state goes in by value; nothing here reads a memory.
#![tactic(auto)]

ghost use Rattle.std.specs.Prelude.{◌≡◌, ◌≤◌};
ghost use Rattle.model.specs.Region.{decode};
ghost use Rattle.model.specs.Wait.{window as windowOf, kind_at};
ghost use Rattle.model.specs.Price.{beat_cycles, price, kind_after, rom_access, data_beats_in};
ghost use Rattle.model.specs.Timing as def;
ghost use Rattle.model.specs.Laws.Window.{InRom};
ghost use Rattle.model.specs.Laws.Previous.{SoundPrevious};
ghost use Rattle.timing.specs.Fetch.{PlainPrice, fetch_price};

use disable_bug::DisableBugInput;
use model::{
    AccessKind, AccessSize, InsnCycles, IsaState, PrefetchBuffer, Previous, Region, RomWindow,
    TimingInput, Version,
};

pub mod disable_bug;

// The Rust's `(u32, u32)`: the cycles of a fetch, and those of them in which the cartridge bus is free.
#[derive(Clone, Copy)]
pub struct FetchPrice {
    pub cycles: u32,
    pub cart_idle: u32,
}

// Whether an opcode is taken to have an internal cycle; of a Thumb opcode the low 16 bits count.
fn had_internal(version: Version, isa: IsaState, raw: u32) -> bool
    ensures { result ≡ def.internal version isa raw }
{
    match isa {
        IsaState::Arm => disable_bug::arm_likely_i_cycles_no_pc(raw),
        IsaState::Thumb => {
            disable_bug::thumb_likely_i_cycles_no_pc(version, (raw % 0x1_0000) as u16)
        }
    }
}

// One half from ROM: a hit on the buffer's head costs 1; else the address as given decides, with the window it is priced by.
#[tactic(auto, unfolding(model::specs::Timing::half_beat))]
fn price_rom_half(
    addr: u32,
    window: RomWindow,
    kind: AccessKind,
    waits: [[u8; 2]; 3],
    prefetch: PrefetchBuffer,
) -> u32
    ensures beat { result ≡ beat_cycles waits (def.half_beat prefetch addr window kind) }
    ensures few { result ≤ 256 }
{
    if prefetch::hits(prefetch, addr) {
        return prefetch::hit_cycles();
    }
    waits::rom_half_cycles_at(waits, addr, window, kind)
}

// An opcode from ROM: one half, or two of which the second is sequential and priced by the first one's window.
#[tactic(auto, unfolding(model::specs::Timing::half_beat))]
fn price_rom(
    addr: u32,
    window: RomWindow,
    kind: AccessKind,
    isa: IsaState,
    waits: [[u8; 2]; 3],
    prefetch: PrefetchBuffer,
) -> u32
    ensures beats { result ≡ price waits (def.rom_beats prefetch addr window kind isa) }
    ensures few { result ≤ 512 }
{
    let first = price_rom_half(addr, window, kind, waits, prefetch);
    match isa {
        IsaState::Arm => {
            let next = addr.wrapping_add(2);
            first + price_rom_half(next, window, AccessKind::Seq, waits, prefetch)
        }
        IsaState::Thumb => first,
    }
}

// An opcode from elsewhere: its beat costs the same under all waits.
#[tactic(auto, unfolding(model::specs::Timing::plain_beat))]
fn price_plain(addr: u32, isa: IsaState) -> u32
    ensures beat { PlainPrice addr isa result }
    ensures few { result ≤ 512 }
{
    if addr / 0x100_0000 != 0x02 {
        return waits::fixed_fast_cycles();
    }
    match isa {
        IsaState::Arm => waits::ewram_cycles(AccessSize::Word),
        IsaState::Thumb => waits::ewram_cycles(AccessSize::Half),
    }
}

fn price_fetch(
    addr: u32,
    kind: AccessKind,
    isa: IsaState,
    waits: [[u8; 2]; 3],
    prefetch: PrefetchBuffer,
) -> FetchPrice
    ensures price { result ≡ fetch_price waits prefetch addr kind isa }
    ensures few { (result.cycles ≤ 512) × (result.cart_idle ≤ 512) }
{
    let Some(window) = waits::window_from_addr(addr) else {
        let cycles = price_plain(addr, isa);
        return FetchPrice {
            cycles,
            cart_idle: cycles,
        };
    };
    let cycles = price_rom(addr, window, kind, isa, waits, prefetch);
    FetchPrice {
        cycles,
        cart_idle: 0,
    }
}

// The five results of pricing an instruction.
#[tactic(auto, using(crate::proofs::Laws::bounds), unfolding(model::specs::Timing::price_insn, model::specs::Timing::fetch_beats, model::specs::Timing::cart_idle_of, model::specs::Timing::disable_bug))]
pub fn price_insn(input: TimingInput, waits: [[u8; 2]; 3], prefetch: PrefetchBuffer) -> InsnCycles
    ensures { result ≡ def.price_insn input waits prefetch }
{
    let had_i = had_internal(input.version, input.isa, input.opcode_raw);
    let fetch_kind = waits::nonseq_if(input.force_fetch_n);
    let fetch = price_fetch(input.code_addr, fetch_kind, input.isa, waits, prefetch);
    let latch_disable_bug = disable_bug::force_next_fetch_nonseq(DisableBugInput {
        prefetch_enabled: input.prefetch_enabled,
        code_in_rom: waits::in_window(input.code_addr),
        had_internal_cycles: had_i,
        pc_changed: input.pc_changed,
    });
    let internal = u32::from(had_i);
    InsnCycles {
        total: fetch.cycles + internal,
        internal,
        cart_idle: fetch.cart_idle + internal,
        latch_disable_bug,
        fetch_kind,
    }
}

// The kind of a data access to ROM at a lowered address, from the previous one. What goes on where that ended, and begins
// no block, lies in one block with it: the regions are the same, and need not be decoded to be compared.
#[tactic(auto, using(crate::proofs::Laws::kind_in_rom), unfolding(model::specs::Price::kind_after))]
fn rom_kind_after(previous: Previous, addr: u32) -> AccessKind
    requires { SoundPrevious previous × InRom addr }
    ensures { result ≡ kind_after previous addr }
{
    if previous.size == 0 {
        return AccessKind::Nonseq;
    }
    waits::classify_access(previous.addr, waits::access_size(previous.size), addr, true)
}

// ROM data at a lowered address: a byte or a half is one beat, a word that and S.
fn rom_cost(
    waits: [[u8; 2]; 3],
    window: RomWindow,
    size: AccessSize,
    addr: u32,
    previous: Previous,
) -> u32
    requires { SoundPrevious previous × InRom addr }
    ensures { result ≡ price waits
        (rom_access size (kind_at addr (kind_after previous addr)) window) }
{
    let kind = rom_kind_after(previous, addr);
    let first = waits::rom_half_cycles_at(waits, addr, window, kind);
    match size {
        AccessSize::Byte | AccessSize::Half => first,
        AccessSize::Word => first + waits::rom_half_cycles(waits, window, AccessKind::Seq),
    }
}

// The price of a data access, by its region, its lowered address and the previous access.
#[tactic(auto, using(crate::proofs::Laws::in_rom))]
pub fn data_cycles(
    waits: [[u8; 2]; 3],
    sram_waits: u8,
    size: AccessSize,
    addr: u32,
    region: Region,
    previous: Previous,
) -> u32
    requires { SoundPrevious previous × (region ≡ decode addr) }
    ensures { result ≡ price waits
        (data_beats_in sram_waits size (kind_at addr (kind_after previous addr)) region) }
{
    match region {
        Region::Bios
        | Region::UnusedLow
        | Region::Iwram
        | Region::Io
        | Region::Oam
        | Region::UnusedHigh => waits::fixed_fast_cycles(),
        Region::Ewram => waits::ewram_cycles(size),
        Region::Palette | Region::Vram => waits::video_ram_cycles(size),
        Region::GamePakRomWs0 => rom_cost(waits, RomWindow::Ws0, size, addr, previous),
        Region::GamePakRomWs1 => rom_cost(waits, RomWindow::Ws1, size, addr, previous),
        Region::GamePakRomWs2 => rom_cost(waits, RomWindow::Ws2, size, addr, previous),
        Region::GamePakSram => waits::sram_byte_cycles(sram_waits),
    }
}
