// The bus's loads of 1, 2 and 4 bytes over the lent memories. Port of the loads of src/bus/mod.rs (`Bus as CpuMem`). BIOS and ROM
// are slices of their own; the other memories are parts of one store, with their lengths beside it. A load goes on from the
// memory that its address meets, which the caller has decoded.
#![tactic(auto)]

ghost use Rattle.std.specs.Prelude.{◌≡◌, ◌+◌, ◌-◌, ◌%◌, ◌^◌, ◌<◌, ◌≤◌, length};
ghost use Rattle.model.specs.Base.{AllBytes};
ghost use Rattle.model.specs.Memory.{lengths_sum, target};
ghost use Rattle.model.specs.Load as def;
ghost use Rattle.model.specs.Wait.{size_bytes_of};
ghost use Rattle.model.specs.Laws.Places.{Lies};
ghost use Rattle.model.specs.Step.{Media as Lent};
ghost use Rattle.parts.specs.Stored.{whole};
ghost use Rattle.loads.specs.Bus.{media, bus, Parted, parted};
ghost use Rattle.loads.specs.Words as words;

use le::byte_at;
use model::{AccessSize, Lengths, Target};
use openbus::OpenBusState;
use parts::{is_sram, memory, target_of};
use region::ROM_WINDOW_SIZE;
use region::mirror::mirrored;
use std::marker::Model;
use waits::size_bytes;

// What a run is lent and doesn't change: the BIOS, the ROM, and the lengths of the seven memories in the store.
#[derive(Drop)]
pub struct Media<'a> {
    pub bios: &'a [u8],
    pub rom: &'a [u8],
    pub lengths: Lengths,
}

impl<'a> Model for Media<'a> {
    ghost Value = { Lent };

    ghost view = { λ m. media m.bios.now m.rom.now m.lengths };

    ghost invariant = { λ m. AllBytes m.bios.now × AllBytes m.rom.now };
}

// What a load sees: of the board the pc and the BIOS latch, and the lent memories.
#[derive(Drop)]
pub struct Bus<'a> {
    pub pc: u32,
    pub latch: u32,
    pub bios: &'a [u8],
    pub rom: &'a [u8],
    pub store: &'a [u8],
    pub lengths: Lengths,
}

impl<'a> Model for Bus<'a> {
    ghost Value = { Parted };

    ghost view = { λ b. parted (bus b.pc b.latch b.bios.now b.rom.now b.store.now) b.lengths };

    // The seven memories are the store.
    ghost invariant = { λ b. lengths_sum b.lengths ≡ length b.store.now };
}

// The region has shown that the address is below the BIOS's end.
#[tactic(auto, unfolding(model::specs::Load::bios_byte, openbus::specs::OpenBus::protected_read))]
fn read_bios8(addr: u32, pc: u32, latch: u32, bios: &[u8]) -> u8
    ensures { result ≡ def.bios_byte bios.now pc latch addr }
{
    let state = OpenBusState {
        last_bios_opcode: latch,
    };
    match openbus::bios_protect_read(pc, state) {
        Some(opcode) => openbus::bios_protect_byte(opcode, addr),
        None => byte_at(bios, addr as usize),
    }
}

// A load repeats at the chip's length; without a chip it gives 0xFF.
#[tactic(auto, using(parts::proofs::LentPart::whole_byte), unfolding(model::specs::Load::sram_byte))]
fn read_sram8(chip: &[u8], index: usize) -> u8
    ensures { result ≡ def.sram_byte chip.now (whole chip.now) index }
{
    if chip.is_empty() {
        return 0xFF;
    }
    byte_at(chip, index % chip.len())
}

// The Rust's three loads. They are no one function over the size: each is made of the one before it, and SRAM has a rule at each.
// The memory goes in beside the address, decoded once; a struct of both would hold the lengths too, by which they belong
// together.
impl<'a> Bus<'a> {
    // `read8`, in the memory that the address meets.
    #[tactic(auto, using(crate::proofs::Arms::wide_laws), unfolding(model::specs::Load::load8))]
    fn read8(&self, at: Target, addr: u32) -> u8
        requires { at ≡ target self.now.lengths addr }
        ensures { result ≡ def.load8 self.now.lengths self.now.sees addr }
    {
        match at {
            Target::Unused => 0,
            Target::SystemRom => read_bios8(addr, self.pc, self.latch, self.bios),
            Target::GamePakRom => byte_at(self.rom, mirrored::<ROM_WINDOW_SIZE>(addr)),
            Target::Plain(part, index) | Target::Video(_, part, index) => {
                byte_at(memory(self.store, part), index)
            }
            Target::Sram(part, index) => { read_sram8(memory(self.store, part), index) }
        }
    }

    // `read16`: two byte loads, each decoded by itself; SRAM repeats its one byte.
    #[tactic(auto, using(crate::proofs::Arms::wide_laws), unfolding(model::specs::Load::load16))]
    fn read16(&self, at: Target, addr: u32) -> u16
        requires { at ≡ target self.now.lengths addr }
        ensures { result ≡ def.load16 self.now.lengths self.now.sees addr }
    {
        let low = self.read8(at, addr);
        if is_sram(at) {
            return u16::from_le_bytes([low, low]);
        }
        let next = addr.wrapping_add(1);
        let high = self.read8(target_of(next, self.lengths), next);
        u16::from_le_bytes([low, high])
    }

    // `read32`: two halfword loads, each decoded by itself. A block takes its last word by it, so that `read` has one
    // caller, into which the compiler puts it.
    #[tactic(auto, using(crate::proofs::Arms::wide_laws), unfolding(model::specs::Load::load32))]
    pub fn read32(&self, at: Target, addr: u32) -> u32
        requires { at ≡ target self.now.lengths addr }
        ensures { result ≡ def.load32 self.now.lengths self.now.sees addr }
    {
        if is_sram(at) {
            return 0x0101_0101 * self.read8(at, addr) as u32;
        }
        let low = self.read16(at, addr) as u32;
        let next = addr.wrapping_add(2);
        let high = self.read16(target_of(next, self.lengths), next) as u32;
        low + 0x1_0000 * high
    }
}

// ---- an aligned load, which lies in one memory

// The word at a place, if all four bytes of it stand in the memory.
#[tactic(auto, unfolding(crate::specs::Words::word_at))]
fn word_in(bytes: &[u8], index: usize) -> Option<u32>
    requires { index + 4 < 2 ^ 64 }
    ensures { result ≡ words.word_at bytes.now 0 (length bytes.now) index }
{
    if bytes.len() < index + 4 {
        return None;
    }
    Some(le::read32(bytes, index))
}

#[tactic(auto, using(crate::proofs::Words::word_part))]
fn word_from(at: Target, addr: u32, rom: &[u8], store: &[u8]) -> Option<u32>
    requires { Lies (length store.now) at }
    ensures word { result ≡ words.word_from rom.now store.now addr at }
    ensures rom { AllBytes rom.now }
    ensures store { AllBytes store.now }
{
    match at {
        Target::Unused | Target::SystemRom | Target::Sram(_, _) => None,
        Target::GamePakRom => word_in(rom, mirrored::<ROM_WINDOW_SIZE>(addr)),
        Target::Plain(part, index) | Target::Video(_, part, index) => {
            word_in(memory(store, part), index)
        }
    }
}

// The mask of as many low bytes as the size has. It is looked up, where a remainder for each size would be a branch.
fn low_mask(size: AccessSize) -> u32
    ensures { result ≡ 256 ^ size_bytes_of size - 1 }
{
    match size {
        AccessSize::Byte => 0xFF,
        AccessSize::Half => 0xFFFF,
        AccessSize::Word => 0xFFFF_FFFF,
    }
}

fn low_bytes(size: AccessSize, word: u32) -> u32
    ensures { result ≡ word % 256 ^ size_bytes_of size }
{
    word & low_mask(size)
}

// Whether a load finds only zeros there where neither a store nor a ROM is lent: not in the BIOS, which has its latch, and not in
// SRAM, which has 0xFF without a chip.
fn reads_zero(at: Target) -> bool
    ensures { result ≡ words.reads_zero at }
{
    !matches!(at, Target::SystemRom | Target::Sram(_, _))
}

impl<'a> Bus<'a> {
    // By bytes, each decoded by itself, as the Rust does it. Over no store and no ROM, as in a preview, an aligned load is 0 at
    // once.
    #[tactic(auto, using(crate::proofs::Arms::wide_laws))]
    fn read_apart(&self, size: AccessSize, at: Target, addr: u32) -> u32
        requires { at ≡ target self.now.lengths addr }
        ensures { result ≡ def.load self.now.lengths self.now.sees size addr }
    {
        if (addr % size_bytes(size) == 0)
            & (self.store.len() == 0)
            & (self.rom.len() == 0)
            & reads_zero(at)
        {
            return 0;
        }
        match size {
            AccessSize::Byte => self.read8(at, addr) as u32,
            AccessSize::Half => self.read16(at, addr) as u32,
            AccessSize::Word => self.read32(at, addr),
        }
    }

    // A load of any size. An aligned one whose word stands in its memory is part of that word, which saves a decoding for each
    // byte.
    #[tactic(auto, using(crate::proofs::Arms::wide_laws))]
    pub fn read(&self, size: AccessSize, at: Target, addr: u32) -> u32
        requires { at ≡ target self.now.lengths addr }
        ensures { result ≡ def.load self.now.lengths self.now.sees size addr }
    {
        if addr % size_bytes(size) == 0 {
            if let Some(word) = word_from(at, addr, self.rom, self.store) {
                return low_bytes(size, word);
            }
        }
        self.read_apart(size, at, addr)
    }
}
