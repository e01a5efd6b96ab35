// The memory map: which region an address lies in, how wide its bus is and how large its memory. Port of src/bus/region.rs;
// `mirror` is src/bus/mirror.rs.
#![tactic(auto)]

ghost use Rattle.std.specs.Prelude.{◌≡◌};
ghost use Rattle.model.specs.Region as map;

use model::{BusWidth, Region};

pub mod mirror;

pub const BIOS_SIZE: usize = 0x4000;

pub const EWRAM_SIZE: usize = 0x40000;

pub const IWRAM_SIZE: usize = 0x8000;

// The registers and the word at 0x800.
pub const IO_SIZE: usize = 0x804;

pub const PALETTE_SIZE: usize = 0x400;

pub const VRAM_SIZE: usize = 0x18000;

pub const OAM_SIZE: usize = 0x400;

pub const ROM_WINDOW_SIZE: usize = 0x200_0000;

pub const SRAM_WINDOW_SIZE: usize = 0x10000;

// The region of an address, by its top byte.
#[tactic(auto, unfolding(model::specs::Region::decode))]
pub fn decode(addr: u32) -> Region
    ensures { result ≡ map.decode addr }
{
    match addr / 0x100_0000 {
        0x00 => {
            if addr < 0x4000 {
                Region::Bios
            } else {
                Region::UnusedLow
            }
        }
        0x01 => Region::UnusedLow,
        0x02 => Region::Ewram,
        0x03 => Region::Iwram,
        0x04 => Region::Io,
        0x05 => Region::Palette,
        0x06 => Region::Vram,
        0x07 => Region::Oam,
        0x08 | 0x09 => Region::GamePakRomWs0,
        0x0A | 0x0B => Region::GamePakRomWs1,
        0x0C | 0x0D => Region::GamePakRomWs2,
        0x0E | 0x0F => Region::GamePakSram,
        _ => Region::UnusedHigh,
    }
}

// The unused areas have no bus. Ported for completeness: nothing calls it yet; the page tables to come will.
pub fn bus_width(region: Region) -> Option<BusWidth>
    ensures { result ≡ map.bus_width region }
{
    match region {
        Region::Bios | Region::Iwram | Region::Io | Region::Oam => Some(BusWidth::Bits32),
        Region::Ewram
        | Region::Palette
        | Region::Vram
        | Region::GamePakRomWs0
        | Region::GamePakRomWs1
        | Region::GamePakRomWs2 => Some(BusWidth::Bits16),
        Region::GamePakSram => Some(BusWidth::Bits8),
        Region::UnusedLow | Region::UnusedHigh => None,
    }
}

// Ported for completeness: nothing calls it yet.
pub fn is_game_pak_rom(region: Region) -> bool
    ensures { result ≡ map.is_game_pak_rom region }
{
    matches!(
        region,
        Region::GamePakRomWs0 | Region::GamePakRomWs1 | Region::GamePakRomWs2
    )
}

// The unused areas have no memory. Ported for completeness: nothing calls it yet; the page tables to come will.
pub fn physical_size(region: Region) -> Option<usize>
    ensures { result ≡ map.physical_size region }
{
    match region {
        Region::Bios => Some(BIOS_SIZE),
        Region::Ewram => Some(EWRAM_SIZE),
        Region::Iwram => Some(IWRAM_SIZE),
        Region::Io => Some(IO_SIZE),
        Region::Palette => Some(PALETTE_SIZE),
        Region::Vram => Some(VRAM_SIZE),
        Region::Oam => Some(OAM_SIZE),
        Region::GamePakRomWs0 | Region::GamePakRomWs1 | Region::GamePakRomWs2 => {
            Some(ROM_WINDOW_SIZE)
        }
        Region::GamePakSram => Some(SRAM_WINDOW_SIZE),
        Region::UnusedLow | Region::UnusedHigh => None,
    }
}
