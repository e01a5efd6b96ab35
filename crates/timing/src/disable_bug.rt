// The opcodes that are taken to have internal cycles, and the prefetch disable bug. Port of src/bus/disable_bug.rs; the masks
// are the Rust's.
ghost use Rattle.std.specs.Prelude.{◌≡◌, ◌*◌};
ghost use Rattle.model.specs.DisableBug as def;

use model::{AccessKind, Version};

#[derive(Clone, Copy)]
pub struct DisableBugInput {
    pub prefetch_enabled: bool,
    pub code_in_rom: bool,
    pub had_internal_cycles: bool,
    pub pc_changed: bool,
}

// Whether the next opcode fetch is nonsequential by the bug.
pub fn force_next_fetch_nonseq(input: DisableBugInput) -> bool
    ensures { result ≡ def.force_next_fetch_nonseq input.prefetch_enabled input.code_in_rom
        input.had_internal_cycles input.pc_changed }
{
    !input.prefetch_enabled & input.code_in_rom & input.had_internal_cycles & !input.pc_changed
}

// The kind of the next opcode fetch. Ported for completeness: nothing calls it yet.
#[tactic(auto, unfolding(model::specs::DisableBug::next_opcode_access_kind))]
pub fn next_opcode_access_kind(input: DisableBugInput, sequential: bool) -> AccessKind
    ensures { result ≡ def.next_opcode_access_kind
        (def.force_next_fetch_nonseq input.prefetch_enabled input.code_in_rom
        input.had_internal_cycles input.pc_changed)
        sequential }
{
    if force_next_fetch_nonseq(input) {
        return AccessKind::Nonseq;
    }
    if sequential {
        return AccessKind::Seq;
    }
    AccessKind::Nonseq
}

// MUL and MLA, LDR of a word, LDM, SWP, and data processing with a shift by register.
pub fn arm_likely_i_cycles_no_pc(raw: u32) -> bool
    ensures { result ≡ def.arm_internal raw }
{
    let mul = (raw & 0x0FC0_00F0) == 0x0000_0090;
    let ldr = (raw & 0x0C50_0000) == 0x0410_0000;
    let ldm = (raw & 0x0E10_0000) == 0x0810_0000;
    let swp = (raw & 0x0FB0_0FF0) == 0x0100_0090;
    let shift_rs = (raw & 0x0E00_0090) == 0x0000_0010;
    mul | ldr | ldm | swp | shift_rs
}

// The high byte of Thumb's POP, its lowest bit clear: where the Rust looks for it, and from version 2 on where it is.
fn pop_byte(version: Version) -> u16
    ensures { result ≡ 2 * def.pop_opcode version }
{
    match version {
        Version::One => 0xBA,
        Version::Two => 0xBC,
    }
}

// LDR by immediate, from PC and from SP, LDMIA, and POP.
#[tactic(auto, unfolding(model::specs::DisableBug::thumb_internal))]
pub fn thumb_likely_i_cycles_no_pc(version: Version, raw: u16) -> bool
    ensures { result ≡ def.thumb_internal version raw }
{
    let op = raw / 256;
    let ldr_imm = (op & 0xF8) == 0x68;
    let ldr_pc = (op & 0xF8) == 0x48;
    let ldr_sp = (op & 0xF8) == 0x98;
    let ldm = (op & 0xF8) == 0xC8;
    let pop = (op & 0xFE) == pop_byte(version);
    ldr_imm | ldr_pc | ldr_sp | ldm | pop
}
