// BIOS loads from outside the BIOS, and an empty cartridge slot. Port of src/bus/openbus.rs.
#![tactic(auto)]

ghost use Rattle.std.specs.Prelude.{◌≡◌, ◌%◌};
ghost use Rattle.model.specs.Base.{byte_of};
ghost use Rattle.openbus.specs.OpenBus as lines;

// Where the BIOS ends.
pub const BIOS_END: u32 = 0x4000;

// The last opcode that was fetched from the BIOS.
#[derive(Clone, Copy)]
pub struct OpenBusState {
    pub last_bios_opcode: u32,
}

impl OpenBusState {
    // The latch before any opcode was fetched. Ported for completeness: nothing calls it yet.
    pub fn new() -> OpenBusState
        ensures { result ≡ lines.latching 0 }
    {
        OpenBusState {
            last_bios_opcode: 0,
        }
    }

    // The latch after a fetch from the BIOS. Ported for completeness: nothing calls it yet.
    pub fn note_bios_fetch(self, opcode: u32) -> OpenBusState
        ensures { result ≡ lines.latching opcode }
    {
        OpenBusState {
            last_bios_opcode: opcode,
        }
    }
}

// Whether the CPU runs inside the BIOS, which may then read itself.
pub fn pc_in_bios(pc: u32) -> bool
    ensures { result ≡ lines.in_bios pc }
{
    pc < BIOS_END
}

// What a load from the BIOS gives: with the pc outside of it, the last opcode fetched there; inside, it is read as other memory.
#[tactic(auto, unfolding(crate::specs::OpenBus::protected_read))]
pub fn bios_protect_read(pc: u32, state: OpenBusState) -> Option<u32>
    ensures { result ≡ lines.protected_read pc state }
{
    if pc_in_bios(pc) {
        None
    } else {
        Some(state.last_bios_opcode)
    }
}

// The byte of the latch by address bits 0 and 1.
pub fn bios_protect_byte(latch: u32, addr: u32) -> u8
    ensures { result ≡ byte_of (addr % 4) latch }
{
    le::lane(latch, addr % 4)
}

// With no cartridge the lines still hold the address, in halfwords. Ported for completeness: nothing calls it yet but
// `empty_cart_rom_word`.
pub fn empty_cart_rom_halfword(addr: u32) -> u16
    ensures { result ≡ lines.empty_halfword addr }
{
    (addr / 2 % 0x1_0000) as u16
}

// The same for a word. Ported for completeness: nothing calls it yet.
pub fn empty_cart_rom_word(addr: u32) -> u32
    ensures { result ≡ lines.empty_word addr }
{
    let low = empty_cart_rom_halfword(addr) as u32;
    let high = empty_cart_rom_halfword(addr.wrapping_add(2)) as u32;
    low + 0x1_0000 * high
}
