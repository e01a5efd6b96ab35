// The types that the machine's definitions (specs/) and every layer's code share. A type that ports one of the Rust's
// keeps its name; the others are made for the rules that docs/RULES.md adds. No code that runs a sheet is here: only
// functions of a type alone, its own fresh value and a part's range.
#![tactic(auto)]

ghost use Rattle.std.specs.Prelude.{◌≡◌, ◌+◌, ◌^◌, ◌<◌};
ghost use Rattle.model.specs.Memory.{no_lengths};
ghost use Rattle.model.specs.Price.{no_access};
ghost use Rattle.model.specs.Prefetch.{new_buffer};
ghost use Rattle.model.specs.BoardBytes.{fresh_board};

use std::ops::Range;

// ---- src/bus/region.rs

#[derive(Clone, Copy)]
pub enum Region {
    Bios,
    UnusedLow,
    Ewram,
    Iwram,
    Io,
    Palette,
    Vram,
    Oam,
    GamePakRomWs0,
    GamePakRomWs1,
    GamePakRomWs2,
    GamePakSram,
    UnusedHigh,
}

#[derive(Clone, Copy)]
pub enum BusWidth {
    Bits8,
    Bits16,
    Bits32,
}

// ---- src/bus/wait.rs

#[derive(Clone, Copy)]
pub enum AccessKind {
    Nonseq,
    Seq,
}

#[derive(Clone, Copy)]
pub enum RomWindow {
    Ws0,
    Ws1,
    Ws2,
}

#[derive(Clone, Copy)]
pub enum AccessSize {
    Byte,
    Half,
    Word,
}

// ---- src/bus/prefetch.rs

// The prefetch buffer without its eight halfwords, which stand beside it: time does not depend on them. The fields are the Rust's
// and the board's: any may stand on a board that is read, so that what is known of a sound one is no invariant, and a ring of
// what stands in it would lose the bytes that do not.
#[derive(Clone, Copy, PartialEq)]
pub struct PrefetchBuffer {
    pub head: usize,
    pub count: usize,
    pub next_addr: u32,
    pub wait_left: u32,
    pub head_addr: u32,
    pub enabled: bool,
    pub filling: bool,
    pub first_beat: bool,
}

impl PrefetchBuffer {
    // The buffer of a fresh board: switched off and empty. A fresh state is a function, with what it is as its
    // contract; a derived `Default` would be a second word for it.
    pub fn new() -> PrefetchBuffer
        ensures { result ≡ new_buffer }
    {
        PrefetchBuffer {
            head: 0,
            count: 0,
            next_addr: 0,
            wait_left: 0,
            head_addr: 0,
            enabled: false,
            filling: false,
            first_beat: false,
        }
    }
}

// ---- src/cpu/timing.rs

#[derive(Clone, Copy)]
pub enum IsaState {
    Arm,
    Thumb,
}

#[derive(Clone, Copy)]
pub struct TimingInput {
    // Added: by which version's test an internal cycle is looked for.
    pub version: Version,
    pub isa: IsaState,
    pub code_addr: u32,
    pub opcode_raw: u32,
    pub pc_changed: bool,
    pub prefetch_enabled: bool,
    pub force_fetch_n: bool,
}

#[derive(Clone, Copy)]
pub struct InsnCycles {
    pub total: u32,
    pub internal: u32,
    pub cart_idle: u32,
    pub latch_disable_bug: bool,
    pub fetch_kind: AccessKind,
}

// ---- added: the layouts, in bytes. specs/ has the same numbers under the same names, and include/bts.h has them for C.

pub const HEADER_LENGTH: usize = 8;

pub const RECORD_LENGTH: usize = 12;

pub const ANSWER_LENGTH: usize = 12;

// A step's share of the charge.
pub const SHARE_LENGTH: usize = 8;

// The grounds of a step, a byte a beat.
pub const GROUNDS_LENGTH: usize = 32;

pub const BOARD_LENGTH: usize = 80;

// The most records of a sheet.
pub const MAX_RECORDS: usize = 4096;

// The versions of a sheet: the first, and the latest that is known.
pub const FIRST_VERSION: u16 = 1;

pub const LATEST_VERSION: u16 = 2;

// The most words of a block.
pub const MAX_WORDS: u32 = 16;

// ---- added: the contract's tariff

// A rate is in cents for this many cycles.
pub const RATE_CYCLES: u64 = 1_000_000;

// The highest rate: a cent a cycle.
pub const MAX_RATE: u32 = 1_000_000;

// ---- added: a step, and the state that a run carries

// The version by whose rules a sheet is read. It decides which kinds there are and where Thumb's POP is looked for, and
// nothing else.
#[derive(Clone, Copy)]
pub enum Version {
    One,
    Two,
}

// A record of a sheet: the sheet's version, and its 12 bytes as fields. The bytes of a layout may be anything, and the
// examination is about any: what they stand for, where they stand for something, is a `Step`.
#[derive(Clone, Copy)]
pub struct SheetRecord {
    pub version: Version,
    pub kind: u8,
    pub size: u8,
    pub flag: u8,
    pub zero_byte: u8,
    pub address: u32,
    pub value: u32,
}

// A record decoded: one variant for each of the eleven kinds, in their order. A block has the address of its first word, lowered
// to a multiple of 4, and the number of words.
#[derive(Clone, Copy)]
pub enum Step {
    Read(AccessSize, u32),
    Write(AccessSize, u32, u32),
    Waitcnt(u16),
    Idle(u32),
    Fetch(u32),
    Restart(u32),
    Instruction(Version, IsaState, u32, u32, bool),
    Pc(u32),
    Latch(u32),
    BlockRead(u32, u32),
    BlockWrite(u32, u32),
}

// The previous data access, as a board has it: its address as lowered to a multiple of its size, and the size in bytes, 0
// for none. An `Option` of an access can't be proved: by the law `encode_formed` any board whose zero bytes and flags stand is
// written back as it was read, also with a size of 3, or with an address beside 0. So soundness is no invariant of it, either.
#[derive(Clone, Copy)]
pub struct Previous {
    pub addr: u32,
    pub size: u32,
}

impl Previous {
    // That of a fresh board, and after a step that clears it.
    pub fn none() -> Previous
        ensures { result ≡ no_access }
    {
        Previous { addr: 0, size: 0 }
    }
}

// The part of a board on which cycles, counts, the force flag and the hits in the buffer depend, and nothing else of it.
#[derive(Clone, Copy)]
pub struct Clock {
    pub waitcnt: u16,
    pub force_next_fetch_n: bool,
    pub prefetch: PrefetchBuffer,
    pub previous: Previous,
}

// What loads and stores see or change of a board.
#[derive(Clone, Copy)]
pub struct Contents {
    pub cpu_pc: u32,
    pub last_bios_opcode: u32,
    pub vram_write_count: u64,
    pub oam_write_count: u64,
    pub palette_write_count: u64,
}

// A board: its clock, the buffer's eight halfwords, and its contents.
#[derive(Clone, Copy)]
pub struct Board {
    pub clock: Clock,
    pub halves: [u16; 8],
    pub contents: Contents,
}

impl Board {
    // The board whose bytes are all zero.
    pub fn fresh() -> Board
        ensures { result ≡ fresh_board }
    {
        let prefetch = PrefetchBuffer::new();
        let clock = Clock {
            waitcnt: 0,
            force_next_fetch_n: false,
            prefetch,
            previous: Previous::none(),
        };
        let halves = [0u16; 8];
        let contents = Contents {
            cpu_pc: 0,
            last_bios_opcode: 0,
            vram_write_count: 0,
            oam_write_count: 0,
            palette_write_count: 0,
        };
        Board {
            clock,
            halves,
            contents,
        }
    }
}

// ---- added: the memories

// The lengths of the seven memories of the lent store, in its order.
#[derive(Clone, Copy)]
pub struct Lengths {
    pub ewram: usize,
    pub iwram: usize,
    pub io: usize,
    pub palette: usize,
    pub vram: usize,
    pub oam: usize,
    pub sram: usize,
}

impl Lengths {
    // No memory at all.
    pub fn none() -> Lengths
        ensures { result ≡ no_lengths }
    {
        Lengths {
            ewram: 0,
            iwram: 0,
            io: 0,
            palette: 0,
            vram: 0,
            oam: 0,
            sram: 0,
        }
    }
}

// Where a memory starts in the lent store, and how long it is.
#[derive(Clone, Copy)]
pub struct Part {
    pub base: usize,
    pub size: usize,
}

impl Part {
    // Its places in the store.
    pub fn range(self) -> Range<usize>
        requires { self.base + self.size < 2 ^ 64 }
        ensures { (result.start ≡ self.base) × (result.end ≡ self.base + self.size) }
    {
        self.base..self.base + self.size
    }
}

// The three memories on the video bus, each with a counter of its own on the board.
#[derive(Clone, Copy)]
pub enum VideoMemory {
    PaletteRam,
    VideoRam,
    ObjectRam,
}

// The memory that an address meets, and the place in it. An access is decoded to one of these once; loads, stores and counters
// go on from there.
#[derive(Clone, Copy)]
pub enum Target {
    // Unused areas, and I/O that nothing backs.
    Unused,
    SystemRom,
    GamePakRom,
    // EWRAM, IWRAM, I/O.
    Plain(Part, usize),
    Video(VideoMemory, Part, usize),
    // The backup chip, on a bus of 8 bits.
    Sram(Part, usize),
}

// ---- added: why a step costs what it does

// What decides the price of a beat. specs/Grounds.antt has the word of each, its byte in a lent buffer and its cycles.
#[derive(Clone, Copy)]
pub enum Ground {
    BufferHit,
    Sequential,
    // Nonsequential, by what makes it so: the force flag, the block of 0x20000 bytes, the address.
    ByFlag,
    ByBlock,
    ByAddress,
    EwramBus,
    SramBus,
    // Palette and VRAM.
    VideoBus,
    Fast,
}

// ---- added: what a step answers

#[derive(Clone, Copy)]
pub struct Answer {
    pub value: u32,
    pub cycles: u32,
    // The halfwords taken from the buffer; of a WRITE or a BLOCK WRITE, the bytes that landed.
    pub hits: u8,
    pub count: u8,
    pub force: bool,
}

// ---- added: what the run gives back

// The refusals, in the order in which they are looked for; a faulty record's holds its index. The first seven are the run's,
// the last is the tariff's.
#[derive(Clone, Copy, Debug, PartialEq, Eq)]
pub enum Refusal {
    BadMark,
    BadVersion,
    BadShape,
    BadLengths,
    UnsoundBoard,
    ShortAnswers,
    FaultyRecord(usize),
    BadRate,
}
