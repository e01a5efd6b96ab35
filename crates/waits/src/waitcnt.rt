// WAITCNT (0x04000204): the register and the waits that its fields stand for. Port of src/bus/waitcnt.rs. The register goes in
// by value and comes back. Remainders and quotients stand for the Rust's masks and shifts.
ghost use Rattle.std.specs.Prelude.{◌≡◌};
ghost use Rattle.model.specs.Waitcnt as def;

use model::RomWindow;

// The value after power-on. Ported for completeness: only `WaitCnt::power_on` uses it.
pub const POWER_ON: u16 = 0x0000;

// A setting that commercial cartridges use: WS0 3 and 1, SRAM 8, WS2 8 and 8, prefetch on. Ported for completeness: nothing
// uses it yet.
pub const COMMERCIAL_COMMON: u16 = 0x4317;

// The register.
#[derive(Clone, Copy)]
pub struct WaitCnt {
    pub raw: u16,
}

// The waits of a first access by two bits.
#[tactic(auto, unfolding(model::specs::Waitcnt::n_waits))]
fn n_waits(bits: u16) -> u8
    ensures { result ≡ def.n_waits bits }
{
    match bits % 4 {
        0 => 4,
        1 => 3,
        2 => 2,
        _ => 8,
    }
}

// The waits of a second access: 1 where the bit is set, else the slow value.
#[tactic(auto, unfolding(model::specs::Waitcnt::s_waits))]
fn s_waits(slow: u8, bits: u16) -> u8
    ensures { result ≡ def.s_waits slow bits }
{
    if bits % 2 == 1 { 1 } else { slow }
}

impl WaitCnt {
    // Ported for completeness: nothing calls it yet but `WaitTables`.
    pub fn power_on() -> WaitCnt
        ensures { result.raw ≡ def.power_on }
    {
        WaitCnt { raw: POWER_ON }
    }

    // The register that holds a value: bit 13 is cleared. Ported for completeness: nothing calls it yet.
    #[tactic(auto, unfolding(model::specs::Waitcnt::from_u16))]
    pub fn from_u16(value: u16) -> WaitCnt
        ensures { result.raw ≡ def.from_u16 value }
    {
        WaitCnt {
            raw: value % 0x2000 + value / 0x4000 * 0x4000,
        }
    }

    // A write keeps bits 0 to 12 and 14 of the value, clears 13 and leaves 15.
    #[tactic(auto, unfolding(model::specs::Waitcnt::written))]
    pub fn write(self, value: u16) -> WaitCnt
        ensures { result.raw ≡ def.written self.raw value }
    {
        WaitCnt {
            raw: value % 0x2000 + value / 0x4000 % 2 * 0x4000 + self.raw / 0x8000 % 2 * 0x8000,
        }
    }

    // Bit 15: the cartridge's type, from its pin. Ported for completeness: nothing calls it yet.
    pub fn cart_type_cgb(self) -> bool
        ensures { result ≡ def.cart_type_cgb self.raw }
    {
        self.raw / 0x8000 % 2 == 1
    }

    // Ported for completeness: nothing calls it yet.
    pub fn set_cart_type_cgb(self, cgb: bool) -> WaitCnt
        ensures { result.raw ≡ def.set_cart_type_cgb cgb self.raw }
    {
        WaitCnt {
            raw: self.raw % 0x8000 + cgb as u16 * 0x8000,
        }
    }

    // Bit 14: the prefetch switch.
    #[tactic(auto, unfolding(model::specs::Waitcnt::prefetch_enable))]
    pub fn prefetch_enable(self) -> bool
        ensures { result ≡ def.prefetch_enable self.raw }
    {
        self.raw / 0x4000 % 2 == 1
    }

    // Ported for completeness: nothing calls it yet.
    pub fn set_prefetch_enable(self, enable: bool) -> WaitCnt
        ensures { result.raw ≡ def.set_prefetch_enable enable self.raw }
    {
        WaitCnt {
            raw: self.raw % 0x4000 + self.raw / 0x8000 % 2 * 0x8000 + enable as u16 * 0x4000,
        }
    }

    // Bits 11 and 12: the PHI terminal. Ported for completeness: nothing calls it yet.
    pub fn phi_out(self) -> u8
        ensures { result ≡ def.phi_out self.raw }
    {
        (self.raw / 0x800 % 4) as u8
    }

    // The waits of SRAM: bits 0 and 1.
    pub fn sram_waits(self) -> u8
        ensures { result ≡ def.sram_waits self.raw }
    {
        n_waits(self.raw)
    }

    // The N waits of a window: bits 2 and 3, 5 and 6, 8 and 9.
    pub fn rom_n_waits(self, window: RomWindow) -> u8
        ensures { result ≡ def.window_nwaits self.raw window }
    {
        match window {
            RomWindow::Ws0 => n_waits(self.raw / 0x4),
            RomWindow::Ws1 => n_waits(self.raw / 0x20),
            RomWindow::Ws2 => n_waits(self.raw / 0x100),
        }
    }

    // The S waits of a window: bit 4, 7 or 10.
    pub fn rom_s_waits(self, window: RomWindow) -> u8
        ensures { result ≡ def.window_swaits self.raw window }
    {
        match window {
            RomWindow::Ws0 => s_waits(2, self.raw / 0x10),
            RomWindow::Ws1 => s_waits(4, self.raw / 0x80),
            RomWindow::Ws2 => s_waits(8, self.raw / 0x400),
        }
    }
}
