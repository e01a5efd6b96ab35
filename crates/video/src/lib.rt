// Video memory: where object VRAM starts, and what becomes of a store by its size. Port of src/bus/video.rs.
#![tactic(auto)]

ghost use Rattle.std.specs.Prelude.{◌≡◌};
ghost use Rattle.model.specs.Video as rules;
ghost use Rattle.video.specs.Actions as actions;

use model::AccessSize;

// Object VRAM in the tile modes 0 to 2, and in the bitmap modes.
pub const OBJ_VRAM_BASE_TILE: u32 = 0x1_0000;

pub const OBJ_VRAM_BASE_BITMAP: u32 = 0x1_4000;

// What a store to video memory meets.
#[derive(Clone, Copy)]
pub enum VideoTarget {
    Palette,
    Oam,
    BgVram,
    ObjVram,
}

// What becomes of the store: all of it lands, its byte fills a halfword, it is dropped, or its size is refused.
#[derive(Clone, Copy)]
pub enum VideoWriteAction {
    Store,
    ExpandByteToHalfword { halfword: u16 },
    Ignore,
    Reject,
}

// A byte in both halves of a halfword.
pub fn expand_strb_byte(data: u8) -> u16
    ensures { result ≡ actions.doubled «data» }
{
    0x0101 * data as u16
}

// Where object VRAM starts, by the display mode.
#[tactic(auto, unfolding(model::specs::Video::obj_vram_base))]
pub fn obj_vram_base(dispcnt_bg_mode: u8) -> u32
    ensures { result ≡ rules.obj_vram_base dispcnt_bg_mode }
{
    if dispcnt_bg_mode <= 2 {
        OBJ_VRAM_BASE_TILE
    } else {
        OBJ_VRAM_BASE_BITMAP
    }
}

// What stands at a place of VRAM, which ends at 96 KiB.
#[tactic(auto, unfolding(model::specs::Video::is_obj_vram, model::specs::Video::obj_vram_base, crate::specs::Actions::vram_class))]
pub fn classify_vram_offset(offset: u32, dispcnt_bg_mode: u8) -> Option<VideoTarget>
    ensures { result ≡ actions.vram_class offset dispcnt_bg_mode }
{
    if region::VRAM_SIZE <= offset as usize {
        return None;
    }
    if obj_vram_base(dispcnt_bg_mode) <= offset {
        Some(VideoTarget::ObjVram)
    } else {
        Some(VideoTarget::BgVram)
    }
}

// Whether video memory takes the size whole. It is the same for all targets: the first parameter is the Rust's.
pub fn write_size_ok(_target: VideoTarget, size: AccessSize) -> bool
    ensures { result ≡ actions.is_wide size }
{
    matches!(size, AccessSize::Half | AccessSize::Word)
}

// A store of 16 or 32 bits.
pub fn resolve_wide_write(target: VideoTarget, size: AccessSize) -> VideoWriteAction
    ensures { result ≡ actions.wide_action size }
{
    if write_size_ok(target, size) {
        VideoWriteAction::Store
    } else {
        VideoWriteAction::Reject
    }
}

// A store of a byte.
pub fn resolve_strb(target: VideoTarget, data: u8) -> VideoWriteAction
    ensures { result ≡ actions.byte_action target «data» }
{
    match target {
        VideoTarget::Palette | VideoTarget::BgVram => VideoWriteAction::ExpandByteToHalfword {
            halfword: expand_strb_byte(data),
        },
        VideoTarget::Oam | VideoTarget::ObjVram => VideoWriteAction::Ignore,
    }
}

// A store of any size; of a byte, `data_lsb` is the value. Ported for completeness: nothing calls it yet, nor the two functions
// that only it calls, since a store that is wide lands whole.
pub fn resolve_video_write(target: VideoTarget, size: AccessSize, data_lsb: u8) -> VideoWriteAction
    ensures { result ≡ actions.video_action target size data_lsb }
{
    match size {
        AccessSize::Byte => resolve_strb(target, data_lsb),
        AccessSize::Half | AccessSize::Word => resolve_wide_write(target, size),
    }
}
