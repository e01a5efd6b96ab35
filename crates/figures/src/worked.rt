// The worked figures: the data prices of docs/RULES.md, "What a data access costs", and the figures in the comments of the ported
// Rust, group by group.
use crate::record::Record;
use crate::record::Record::{Arm, Fetch, Idle, Latch, Pc, Read, Restart, Thumb, Waitcnt, Write};
use model::AccessSize::{Byte, Half, Word};

// What is to be seen, and the records that show it.
#[derive(Clone, Copy)]
pub struct Figure<const N: usize> {
    pub title: &'static str,
    pub records: [Record; N],
}

// What a data access costs by region, at power on.
pub const DATA_PRICES: [Figure<3>; 5] = [
    Figure {
        title: "EWRAM 3, 3, 6",
        records: [
            Read(Byte, 0x0200_0000),
            Read(Half, 0x0200_0000),
            Read(Word, 0x0200_0000),
        ],
    },
    Figure {
        title: "Video memory 1, 1, 2",
        records: [
            Read(Byte, 0x0600_0000),
            Read(Half, 0x0500_0000),
            Read(Word, 0x0600_0000),
        ],
    },
    Figure {
        title: "OAM, IWRAM, I/O 1",
        records: [
            Read(Word, 0x0700_0000),
            Read(Word, 0x0300_0000),
            Read(Word, 0x0400_0000),
        ],
    },
    Figure {
        title: "ROM at power on 5, 5, 8",
        records: [
            Read(Byte, 0x0800_0001),
            Read(Half, 0x0800_0001),
            Read(Word, 0x0800_0001),
        ],
    },
    Figure {
        title: "SRAM at power on 5",
        records: [
            Read(Byte, 0x0E00_0000),
            Read(Half, 0x0E00_0000),
            Read(Word, 0x0E00_0000),
        ],
    },
];

// WAITCNT 0x4317, which most commercial cartridges set.
pub const COMMON_SETTING: [Figure<3>; 3] = [
    Figure {
        title: "The common setting: WS0 4, 6",
        records: [
            Waitcnt(0x4317),
            Read(Half, 0x0800_0000),
            Read(Word, 0x0800_0000),
        ],
    },
    Figure {
        title: "The common setting: WS2 9, 18",
        records: [
            Waitcnt(0x4317),
            Read(Half, 0x0C00_0000),
            Read(Word, 0x0C00_0000),
        ],
    },
    Figure {
        title: "The common setting: SRAM 9",
        records: [
            Waitcnt(0x4317),
            Read(Byte, 0x0E00_0000),
            Read(Word, 0x0E00_0000),
        ],
    },
];

// The fields of WAITCNT for a first access.
pub const FIRST_FIELDS: [Figure<3>; 3] = [
    Figure {
        title: "First access, field 1: 4",
        records: [
            Waitcnt(0x0125),
            Read(Byte, 0x0E00_0000),
            Read(Half, 0x0A00_0000),
        ],
    },
    Figure {
        title: "First access, field 2: 3",
        records: [
            Waitcnt(0x024A),
            Read(Byte, 0x0E00_0000),
            Read(Half, 0x0A00_0000),
        ],
    },
    Figure {
        title: "First access, field 3: 9",
        records: [
            Waitcnt(0x036F),
            Read(Byte, 0x0E00_0000),
            Read(Half, 0x0A00_0000),
        ],
    },
];

// Those for a second one, in each window.
pub const SECOND_FIELDS: [Figure<3>; 3] = [
    Figure {
        title: "Second access in WS0: 3 or 2",
        records: [
            Read(Word, 0x0800_0000),
            Waitcnt(0x0010),
            Read(Word, 0x0800_0000),
        ],
    },
    Figure {
        title: "Second access in WS1: 5 or 2",
        records: [
            Read(Word, 0x0A00_0000),
            Waitcnt(0x0080),
            Read(Word, 0x0A00_0000),
        ],
    },
    Figure {
        title: "Second access in WS2: 9 or 2",
        records: [
            Read(Word, 0x0C00_0000),
            Waitcnt(0x0400),
            Read(Word, 0x0C00_0000),
        ],
    },
];

// Which addresses are one place.
pub const MIRRORS: [Figure<3>; 5] = [
    Figure {
        title: "EWRAM repeats every 0x40000",
        records: [
            Write(Word, 0x0200_0000, 0x1234_5678),
            Read(Word, 0x0204_0000),
            Read(Word, 0x02FC_0000),
        ],
    },
    Figure {
        title: "IWRAM repeats every 0x8000",
        records: [
            Write(Word, 0x0300_0000, 0x1234_5678),
            Read(Word, 0x0300_8000),
            Read(Word, 0x03FF_8000),
        ],
    },
    Figure {
        title: "Palette repeats every 0x400",
        records: [
            Write(Half, 0x0500_0000, 0x1234),
            Read(Half, 0x0500_0400),
            Read(Half, 0x05FF_FC00),
        ],
    },
    Figure {
        title: "OAM repeats every 0x400",
        records: [
            Write(Half, 0x0700_0000, 0x1234),
            Read(Half, 0x0700_0400),
            Read(Half, 0x07FF_FC00),
        ],
    },
    Figure {
        title: "I/O does not repeat",
        records: [
            Write(Half, 0x0400_0000, 3),
            Read(Half, 0x0400_0000),
            Read(Half, 0x0401_0000),
        ],
    },
];

// What a closed BIOS gives, and what becomes of a byte store to video memory.
pub const LATCH_AND_VIDEO: [Figure<3>; 4] = [
    Figure {
        title: "BIOS 1; closed, it gives the latch",
        records: [Pc(0x0800_0000), Latch(0x4433_2211), Read(Word, 0x0000_0000)],
    },
    Figure {
        title: "The latch's bytes by address bits 0 and 1",
        records: [Pc(0x0800_0000), Latch(0x4433_2211), Read(Half, 0x0000_0001)],
    },
    Figure {
        title: "A byte store fills its halfword",
        records: [
            Write(Byte, 0x0500_0001, 0x5A),
            Read(Half, 0x0500_0000),
            Read(Byte, 0x0500_0000),
        ],
    },
    Figure {
        title: "A byte store to OAM is dropped",
        records: [
            Write(Byte, 0x0700_0000, 0x5A),
            Read(Half, 0x0700_0000),
            Read(Byte, 0x0700_0000),
        ],
    },
];

// Which byte stores to VRAM fill their halfword, by the display mode.
pub const VIDEO_MODES: [Figure<3>; 3] = [
    Figure {
        title: "VRAM in mode 0: objects from 0x10000",
        records: [
            Write(Byte, 0x0600_FFFF, 0x5A),
            Write(Byte, 0x0601_0000, 0x5A),
            Read(Word, 0x0600_FFFE),
        ],
    },
    Figure {
        title: "VRAM in mode 3: background up to 0x13FFF",
        records: [
            Write(Byte, 0x0400_0000, 3),
            Write(Byte, 0x0601_3FFF, 0x5A),
            Read(Half, 0x0601_3FFE),
        ],
    },
    Figure {
        title: "VRAM in mode 3: objects from 0x14000",
        records: [
            Write(Byte, 0x0400_0000, 3),
            Write(Byte, 0x0601_4000, 0x5A),
            Read(Half, 0x0601_4000),
        ],
    },
];

// What FETCH, RESTART and IDLE do to the prefetch buffer.
pub const BUFFER: [Figure<2>; 6] = [
    Figure {
        title: "Seven halfwords in 27 cycles; a hit takes the head",
        records: [Idle(27), Fetch(0x0800_0100)],
    },
    Figure {
        title: "Eight in 28; a fetch elsewhere drains",
        records: [Idle(28), Fetch(0x0800_0200)],
    },
    Figure {
        title: "A fetch while none stands drains nothing",
        records: [Fetch(0x0800_0200), Idle(27)],
    },
    Figure {
        title: "Two nonsequential beats after a restart: 5 and 10",
        records: [Idle(9), Idle(1)],
    },
    Figure {
        title: "A restart outside ROM leaves it drained",
        records: [Restart(0x0300_0000), Idle(100)],
    },
    Figure {
        title: "Thumb from the buffer: 1",
        records: [Idle(10), Thumb(0x0800_0100, 0x1C00)],
    },
];

// Where a load and a store go.
pub const PLACES: [Figure<3>; 3] = [
    Figure {
        title: "SRAM loads wrap, stores do not",
        records: [
            Write(Byte, 0x0E00_0000, 0x11),
            Write(Byte, 0x0E00_8000, 0x5A),
            Read(Byte, 0x0E00_8000),
        ],
    },
    Figure {
        title: "VRAM: both halves from 0x10000 are one",
        records: [
            Write(Half, 0x0601_0000, 0x1234),
            Read(Half, 0x0601_8000),
            Read(Half, 0x0600_8000),
        ],
    },
    Figure {
        title: "I/O: the word at 0x800 in every 64 KiB",
        records: [
            Write(Word, 0x04FF_0800, 0x1234_5678),
            Read(Word, 0x0400_0800),
            Read(Word, 0x0401_0800),
        ],
    },
];

// The same in the cartridge: a word across ROM and SRAM, the ROM's three windows, both pages of SRAM.
pub const CARTRIDGE_PLACES: [Figure<3>; 3] = [
    Figure {
        title: "A word across ROM and SRAM",
        records: [
            Write(Byte, 0x0E00_0000, 0xA0),
            Read(Word, 0x0DFF_FFFE),
            Read(Half, 0x0DFF_FFFF),
        ],
    },
    Figure {
        title: "The ROM in three windows",
        records: [
            Read(Half, 0x0800_0100),
            Read(Half, 0x0A00_0100),
            Read(Half, 0x0C00_0100),
        ],
    },
    Figure {
        title: "Page 0x0F is SRAM too",
        records: [
            Write(Byte, 0x0E00_0003, 0x5A),
            Read(Byte, 0x0F00_0003),
            Read(Word, 0x0F00_0003),
        ],
    },
];

// Which opcodes have an idle cycle.
pub const INTERNAL_CYCLES: [Figure<3>; 4] = [
    Figure {
        title: "Internal cycle: SWP, MUL, LDM",
        records: [
            Arm(0x0300_0000, 0xE101_0092),
            Arm(0x0300_0000, 0xE001_0392),
            Arm(0x0300_0000, 0xE8B1_0001),
        ],
    },
    Figure {
        title: "Internal cycle: LDR, shift by register; none: MOV",
        records: [
            Arm(0x0300_0000, 0xE591_0000),
            Arm(0x0300_0000, 0xE1A0_0211),
            Arm(0x0300_0000, 0xE1A0_0000),
        ],
    },
    Figure {
        title: "Thumb internal cycle: LDR by register, pc and sp",
        records: [
            Thumb(0x0300_0000, 0x6800),
            Thumb(0x0300_0000, 0x4800),
            Thumb(0x0300_0000, 0x9800),
        ],
    },
    Figure {
        title: "Thumb internal cycle: LDMIA, 0xBA01; none: ADD",
        records: [
            Thumb(0x0300_0000, 0xC801),
            Thumb(0x0300_0000, 0xBA01),
            Thumb(0x0300_0000, 0x1C00),
        ],
    },
];

// Prices of fetches from ROM, by the address as given and behind an idle cycle.
pub const FETCH_PRICES: [Figure<3>; 2] = [
    Figure {
        title: "The block rule takes the address as given",
        records: [
            Thumb(0x0802_0000, 0x1C00),
            Thumb(0x0802_0001, 0x1C00),
            Arm(0x0801_FFFE, 0xE1A0_0000),
        ],
    },
    Figure {
        title: "The disable bug: the fetch after an internal cycle is nonsequential",
        records: [
            Arm(0x0800_0100, 0xE591_0000),
            Arm(0x0800_0104, 0xE1A0_0000),
            Arm(0x0800_0108, 0xE1A0_0000),
        ],
    },
];
