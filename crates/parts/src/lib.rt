// The memories as parts of the one lent store, which stands for seven of the Rust's `Vec`s: where each lies, which of them an
// address meets, and bytes loaded from one or stored in it.
#![tactic(auto)]

ghost use Rattle.std.specs.Prelude.{◌≡◌, ◌+◌, ◌^◌, ◌≤◌, ◌<◌, length};
ghost use Rattle.model.specs.Memory as def;
ghost use Rattle.model.specs.Store.{put, put_bytes, put_aligned};
ghost use Rattle.model.specs.Wait.{size_bytes_of};
ghost use Rattle.parts.specs.Stored.{store_report, Stores, whole, bytes_of};

use model::{AccessSize, Lengths, Part, Region, Target, VideoMemory};
use region::mirror::{io_offset, mirrored, vram_offset};
use region::{EWRAM_SIZE, IWRAM_SIZE, OAM_SIZE, PALETTE_SIZE, SRAM_WINDOW_SIZE};

// ---- the seven memories, one after the other. A function a memory: they differ in no number, but each begins where another
// ends. That the lengths add up is no invariant of their type: a caller's lengths are examined when they are there

// The part of `size` bytes that follows another.
fn after(part: Part, size: usize) -> Part
    requires { part.base + part.size < 2 ^ 64 }
    ensures { result ≡ def.after part size }
{
    Part {
        base: part.base + part.size,
        size,
    }
}

pub fn ewram(lengths: Lengths) -> Part
    ensures { result ≡ def.ewram_part lengths }
{
    Part {
        base: 0,
        size: lengths.ewram,
    }
}

pub fn iwram(lengths: Lengths) -> Part
    ensures { result ≡ def.iwram_part lengths }
{
    after(ewram(lengths), lengths.iwram)
}

pub fn io(lengths: Lengths) -> Part
    requires { def.lengths_sum lengths < 2 ^ 64 }
    ensures { result ≡ def.io_part lengths }
{
    after(iwram(lengths), lengths.io)
}

pub fn palette(lengths: Lengths) -> Part
    requires { def.lengths_sum lengths < 2 ^ 64 }
    ensures { result ≡ def.palette_part lengths }
{
    after(io(lengths), lengths.palette)
}

pub fn vram(lengths: Lengths) -> Part
    requires { def.lengths_sum lengths < 2 ^ 64 }
    ensures { result ≡ def.vram_part lengths }
{
    after(palette(lengths), lengths.vram)
}

pub fn oam(lengths: Lengths) -> Part
    requires { def.lengths_sum lengths < 2 ^ 64 }
    ensures { result ≡ def.oam_part lengths }
{
    after(vram(lengths), lengths.oam)
}

pub fn sram(lengths: Lengths) -> Part
    requires { def.lengths_sum lengths < 2 ^ 64 }
    ensures { result ≡ def.sram_part lengths }
{
    after(oam(lengths), lengths.sram)
}

// ---- the memory that an address meets

// I/O has gaps.
fn io_target(part: Part, offset: Option<usize>) -> Target
    ensures { result ≡ def.io_target part offset }
{
    match offset {
        Some(index) => Target::Plain(part, index),
        None => Target::Unused,
    }
}

// An address of a region that is known. This is the one place where a region is turned into a memory.
pub fn target_in(region: Region, addr: u32, lengths: Lengths) -> Target
    requires { def.lengths_sum lengths < 2 ^ 64 }
    ensures { result ≡ def.target_in lengths addr region }
{
    match region {
        Region::Bios => Target::SystemRom,
        Region::UnusedLow | Region::UnusedHigh => Target::Unused,
        Region::Ewram => Target::Plain(ewram(lengths), mirrored::<EWRAM_SIZE>(addr)),
        Region::Iwram => Target::Plain(iwram(lengths), mirrored::<IWRAM_SIZE>(addr)),
        Region::Io => io_target(io(lengths), io_offset(addr)),
        Region::Palette => Target::Video(
            VideoMemory::PaletteRam,
            palette(lengths),
            mirrored::<PALETTE_SIZE>(addr),
        ),
        Region::Vram => Target::Video(VideoMemory::VideoRam, vram(lengths), vram_offset(addr)),
        Region::Oam => Target::Video(
            VideoMemory::ObjectRam,
            oam(lengths),
            mirrored::<OAM_SIZE>(addr),
        ),
        Region::GamePakRomWs0 | Region::GamePakRomWs1 | Region::GamePakRomWs2 => Target::GamePakRom,
        Region::GamePakSram => Target::Sram(sram(lengths), mirrored::<SRAM_WINDOW_SIZE>(addr)),
    }
}

#[tactic(auto, unfolding(model::specs::Memory::target))]
pub fn target_of(addr: u32, lengths: Lengths) -> Target
    requires { def.lengths_sum lengths < 2 ^ 64 }
    ensures { result ≡ def.target lengths addr }
{
    target_in(region::decode(addr), addr, lengths)
}

// The bus of 8 bits: a wide load repeats its byte, a wide store takes one.
pub fn is_sram(target: Target) -> bool
    ensures { result ≡ def.is_sram target }
{
    matches!(target, Target::Sram(_, _))
}

// ---- a memory as its part of the store, lent on to what reads it

pub fn memory(store: &[u8], part: Part) -> &[u8]
    requires { part.base + part.size ≤ length store.now }
    ensures { result.now ≡ bytes_of part store.now }
{
    &store[part.range()]
}

// ---- stores in a memory that is lent: past its end a store is dropped

// What a store reports: the bytes that landed in its memory, and the video halfwords that it counts. The two go apart: a byte
// past a memory's end doesn't land, and its halfword counts.
#[derive(Clone, Copy)]
pub struct Stored {
    pub landed: u64,
    pub halfwords: u64,
}

impl Stored {
    // Two stores, one behind the other.
    fn then(self, next: Stored) -> Stored
        requires { (self.landed + next.landed < 2 ^ 64) × (self.halfwords + next.halfwords < 2 ^ 64) }
        ensures { result ≡ store_report (self.landed + next.landed) (self.halfwords + next.halfwords) }
    {
        Stored {
            landed: self.landed + next.landed,
            halfwords: self.halfwords + next.halfwords,
        }
    }
}

// The leaf: one byte, or none.
#[tactic(auto, unfolding(model::specs::Store::put))]
pub fn put(memory: &mut [u8], index: usize, value: u8) -> Stored
    ensures { Stores (put (whole memory.old) index value) 0 memory.old memory.new result }
{
    if index >= memory.len() {
        return Stored {
            landed: 0,
            halfwords: 0,
        };
    }
    memory[index] = value;
    Stored {
        landed: 1,
        halfwords: 0,
    }
}

// The N low bytes of a value, from an index on.
fn put_bytes<const N: usize>(memory: &mut [u8], index: usize, value: u32) -> Stored
    requires { (N ≤ 4) × (index + N ≤ 2 ^ 64) }
    ensures { Stores (put_bytes (whole memory.old) index N value) 0 memory.old memory.new result }
{
    let mut stored = Stored {
        landed: 0,
        halfwords: 0,
    };
    let mut rest = value;
    for k in 0..N {
        stored = stored.then(put(memory, index + k, (rest % 256) as u8));
        rest /= 256;
    }
    stored
}

// A byte, a halfword or a word, aligned: `write16_video_raw` and its kin, for every memory.
pub fn put_aligned(size: AccessSize, memory: &mut [u8], index: usize, value: u32) -> Stored
    ensures { Stores (put_aligned (whole memory.old) index (size_bytes_of size) value) 0 memory.old memory.new result }
{
    match size {
        AccessSize::Byte => put_bytes::<1>(memory, index, value),
        AccessSize::Half => put_bytes::<2>(memory, index / 2 * 2, value),
        AccessSize::Word => put_bytes::<4>(memory, index / 4 * 4, value),
    }
}
