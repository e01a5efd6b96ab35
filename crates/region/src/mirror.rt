// The place of an address in its memory. Port of src/bus/mirror.rs. A remainder stands for the Rust's mask, which is the same
// for a power of two.
ghost use Rattle.std.specs.Prelude.{◌≡◌, ◌%◌, ◌<◌};
ghost use Rattle.model.specs.Mirror as def;

// In a memory that repeats every SIZE bytes over its page: `ewram_offset`, `iwram_offset`, `palette_offset`, `oam_offset`,
// `rom_offset` (the three windows show one image), `sram_window_offset` and `sram_chip_offset`.
pub fn mirrored<const SIZE: usize>(addr: u32) -> usize
    requires { 0 < SIZE }
    ensures { result ≡ addr % SIZE }
{
    addr as usize % SIZE
}

// 128 KiB repeat: 64, 32, and the same 32 again.
#[tactic(auto, unfolding(model::specs::Mirror::vram_offset))]
pub fn vram_offset(addr: u32) -> usize
    ensures { result ≡ def.vram_offset addr }
{
    let off = addr % 0x2_0000;
    if off < 0x1_0000 {
        off as usize
    } else {
        (0x1_0000 + addr % 0x8000) as usize
    }
}

// The registers stand once; the word at 0x800 repeats every 64 KiB.
#[tactic(auto, unfolding(model::specs::Mirror::io_offset))]
pub fn io_offset(addr: u32) -> Option<usize>
    ensures { result ≡ def.io_offset addr }
{
    if addr / 0x100_0000 != 0x04 {
        return None;
    }
    let page_off = addr % 0x1_0000;
    if (0x800 <= page_off) & (page_off < 0x804) {
        return Some(page_off as usize);
    }
    if addr < 0x0400_0400 {
        return Some((addr - 0x0400_0000) as usize);
    }
    None
}

// The BIOS doesn't repeat. Ported for completeness: nothing calls it yet.
#[tactic(auto, unfolding(model::specs::Mirror::bios_offset))]
pub fn bios_offset(addr: u32) -> Option<usize>
    ensures { result ≡ def.bios_offset addr }
{
    (addr < 0x4000).then_some(addr as usize)
}
