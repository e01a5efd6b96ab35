// The bus's stores of 1, 2 and 4 bytes to the lent memories, which are parts of one store. Port of the stores of src/bus/mod.rs
// (`Bus as CpuMem`). A store goes on from the memory that its address meets, which the caller has decoded, and reports the bytes
// that landed and the video halfwords that it counts.
#![tactic(auto)]

ghost use Rattle.std.specs.Prelude.{◌≡◌, [], ◌+◌, ◌^◌, ◌≤◌, ◌<◌, length};
ghost use Rattle.model.specs.Memory.{lengths_sum};
ghost use Rattle.model.specs.Video.{fills};
ghost use Rattle.model.specs.Store as def;
ghost use Rattle.parts.specs.Stored.{whole};
ghost use Rattle.model.specs.Laws.Places.{Lies};
ghost use Rattle.stores.specs.Stored.{nothing_stored, target_at, Filled, StoredVideo, StoredAt, StoredWord, Storable};
ghost use Rattle.model.specs.declared.VideoMemory.TheVariants.{VideoRam};
ghost use Rattle.video.specs.Actions.{fills_halfword};

use le::{byte_at, lane};
use model::{AccessSize, Lengths, Target, VideoMemory};
use parts::{Stored, memory, put, put_aligned};
use video::{VideoTarget, VideoWriteAction};
use waits::size_bytes;

// The display mode: I/O is lent here.
#[tactic(auto, using(parts::proofs::LentPart::part_byte), unfolding(model::specs::Store::mode_of))]
fn dispcnt_bg_mode(store: &[u8], lengths: Lengths) -> u8
    requires { lengths_sum lengths ≡ length store.now }
    ensures { result ≡ def.mode_of lengths store.now }
{
    byte_at(memory(store, parts::io(lengths)), 0) % 8
}

// What video.rs calls the place in a memory, in VRAM by the display mode; past VRAM's end a byte is dropped, as in object VRAM.
#[tactic(auto, unfolding(model::specs::Video::is_obj_vram, model::specs::Video::obj_vram_base, video::specs::Actions::vram_class))]
fn video_target(kind: VideoMemory, index: usize, mode: u8) -> VideoTarget
    requires { index < 2 ^ 32 }
    ensures { result ≡ target_at mode kind index }
{
    match kind {
        VideoMemory::PaletteRam => VideoTarget::Palette,
        VideoMemory::VideoRam => {
            video::classify_vram_offset(index as u32, mode).unwrap_or(VideoTarget::ObjVram)
        }
        VideoMemory::ObjectRam => VideoTarget::Oam,
    }
}

// A store that no memory takes: nothing lands, and nothing counts.
fn dropped() -> Stored
    ensures { result ≡ nothing_stored }
{
    Stored {
        landed: 0,
        halfwords: 0,
    }
}

// A byte store fills its halfword, or is dropped.
fn write8_video(target: VideoTarget, memory: &mut [u8], index: usize, value: u8) -> Stored
    ensures { Filled (fills_halfword target) (whole memory.old) index value memory.old memory.new result }
{
    match video::resolve_strb(target, value) {
        VideoWriteAction::ExpandByteToHalfword { halfword } => {
            let filled = put_aligned(AccessSize::Half, memory, index, halfword as u32);
            Stored {
                halfwords: 1,
                ..filled
            }
        }
        VideoWriteAction::Store | VideoWriteAction::Ignore | VideoWriteAction::Reject => dropped(),
    }
}

// A store to video memory, in a display mode.
fn write_video(
    size: AccessSize,
    kind: VideoMemory,
    memory: &mut [u8],
    index: usize,
    value: u32,
    mode: u8,
) -> Stored
    requires { index < 2 ^ 32 }
    ensures { StoredVideo (fills mode kind index) size (whole memory.old) index value memory.old memory.new result }
{
    match size {
        AccessSize::Byte => {
            let target = video_target(kind, index, mode);
            write8_video(target, memory, index, (value % 256) as u8)
        }
        AccessSize::Half => {
            let half = put_aligned(size, memory, index, value);
            Stored {
                halfwords: 1,
                ..half
            }
        }
        AccessSize::Word => {
            let word = put_aligned(size, memory, index, value);
            Stored {
                halfwords: 2,
                ..word
            }
        }
    }
}

// `write8`, `write16`, `write32`, by the size; the value's low bits are stored. The memory that is met is lent here, on to what
// writes it.
pub fn write(
    size: AccessSize,
    target: Target,
    addr: u32,
    value: u32,
    store: &mut [u8],
    lengths: Lengths,
) -> Stored
    requires { Storable target lengths store.old }
    ensures { StoredAt size addr value target lengths store.old store.new result }
{
    match target {
        Target::Unused | Target::SystemRom | Target::GamePakRom => dropped(),
        Target::Plain(part, index) => put_aligned(size, &mut store[part.range()], index, value),
        Target::Video(kind, part, index) => {
            let mode = dispcnt_bg_mode(store, lengths);
            write_video(size, kind, &mut store[part.range()], index, value, mode)
        }
        Target::Sram(part, index) => put(
            &mut store[part.range()],
            index,
            lane(value, addr % size_bytes(size)),
        ),
    }
}

// `write32`, for the words of a block: it does the same in every display mode, so that it needs no lengths. One `write`
// for both is as quick, but it asks that the lengths add up to the store, which this one never did.
pub fn write_word(target: Target, addr: u32, value: u32, store: &mut [u8]) -> Stored
    requires { Lies (length store.old) target }
    ensures { StoredWord addr value target store.old store.new result }
{
    match target {
        Target::Unused | Target::SystemRom | Target::GamePakRom => dropped(),
        Target::Plain(part, index) => {
            put_aligned(AccessSize::Word, &mut store[part.range()], index, value)
        }
        Target::Video(_, part, index) => Stored {
            halfwords: 2,
            ..put_aligned(AccessSize::Word, &mut store[part.range()], index, value)
        },
        Target::Sram(part, index) => { put(&mut store[part.range()], index, lane(value, addr % 4)) }
    }
}
