// A sheet: its header, its records, the steps they stand for, and the faults of a record. From docs/RULES.md, "The sheet",
// "The kinds of record" and "The two versions".
ghost use Rattle.std.specs.Prelude.{◌≡◌, ◌+◌, ◌*◌, ◌≤◌, ◌<◌, length, unwrap_or, IfSome};
ghost use Rattle.model.specs.Sheet as def;
ghost use Rattle.records.specs.Shape.{Shaped};

use le::{byte_at, half_at, read32};
use model::{
    AccessSize, HEADER_LENGTH, IsaState, MAX_RECORDS, MAX_WORDS, RECORD_LENGTH, SheetRecord, Step,
    Version,
};
use waits::{access_size, aligned};

// ---- the header

// At least a header long, and it begins with "BTS".
pub fn is_marked(sheet: &[u8]) -> bool
    ensures { result ≡ def.is_marked sheet.now }
{
    (HEADER_LENGTH <= sheet.len())
        & (byte_at(sheet, 0) == 0x42)
        & (byte_at(sheet, 1) == 0x54)
        & (byte_at(sheet, 2) == 0x53)
}

pub fn version_of(sheet: &[u8]) -> u16
    ensures { result ≡ def.version_of sheet.now }
{
    half_at(sheet, 3)
}

// The version by whose rules a sheet is read.
#[tactic(auto, unfolding(model::specs::Sheet::rules_of))]
pub fn rules_of(sheet: &[u8]) -> Version
    ensures { result ≡ def.rules_of sheet.now }
{
    match version_of(sheet) {
        2 => Version::Two,
        _ => Version::One,
    }
}

pub fn record_count(sheet: &[u8]) -> usize
    ensures { result ≡ def.record_count sheet.now }
{
    half_at(sheet, 6) as usize
}

// Byte 5 is zero, there are not too many records, and the sheet is as long as they are.
pub fn is_shaped(sheet: &[u8]) -> bool
    ensures { result ≡ def.is_shaped sheet.now }
{
    let n = record_count(sheet);
    (byte_at(sheet, 5) == 0)
        & (n <= MAX_RECORDS)
        & (sheet.len() == HEADER_LENGTH + RECORD_LENGTH * n)
}

// ---- a record

// A sheet that has its shape, with the version by whose rules it is read. Whoever makes one shows both, by the examination, so
// that what reads records asks nothing of the bytes, and reads the version once.
#[derive(Clone, Copy)]
pub struct Sheet<'a> {
    pub bytes: &'a [u8],
    pub version: Version,
    ghost shaped: { Shaped bytes.now },
    ghost ruled: { version ≡ def.rules_of bytes.now },
}

impl<'a> Sheet<'a> {
    // How many records it has.
    pub fn count(self) -> usize
        ensures { result ≡ def.record_count self.entry.bytes.now }
    {
        record_count(self.bytes)
    }

    // The kind of record number k.
    #[tactic(auto, unfolding(model::specs::Sheet::record_at))]
    pub fn kind_at(self, k: usize) -> u8
        requires { k < def.record_count self.bytes.now }
        ensures { result ≡ (def.record_at self.entry.bytes.now k).kind }
    {
        self.bytes[HEADER_LENGTH + RECORD_LENGTH * k]
    }

    // Record number k.
    #[tactic(auto, unfolding(model::specs::Sheet::record_at, model::specs::Sheet::rules_of))]
    pub fn record_at(self, k: usize) -> SheetRecord
        requires { k < def.record_count self.bytes.now }
        ensures { result ≡ def.record_at self.entry.bytes.now k }
    {
        let at = HEADER_LENGTH + RECORD_LENGTH * k;
        SheetRecord {
            version: self.version,
            kind: self.bytes[at],
            size: self.bytes[at + 1],
            flag: self.bytes[at + 2],
            zero_byte: self.bytes[at + 3],
            address: read32(self.bytes, at + 4),
            value: read32(self.bytes, at + 8),
        }
    }
}

#[tactic(auto, unfolding(model::specs::Sheet::isa_state))]
fn isa_state(size: u8) -> IsaState
    ensures { result ≡ def.isa_state size }
{
    match size {
        2 => IsaState::Thumb,
        _ => IsaState::Arm,
    }
}

// The words of a block: as many as its value says, where that is 1 to 16.
#[tactic(auto, unfolding(model::specs::Sheet::words_of))]
pub fn words_of(value: u32) -> u32
    ensures { result ≡ def.words_of value }
{
    value.clamp(1, MAX_WORDS)
}

// The step of a record.
#[tactic(auto, unfolding(model::specs::Sheet::step_of))]
pub fn step_of(r: SheetRecord) -> Step
    ensures { result ≡ def.step_of r }
{
    match r.kind {
        1 => Step::Read(access_size(r.size as u32), r.address),
        2 => Step::Write(access_size(r.size as u32), r.address, r.value),
        3 => Step::Waitcnt((r.value % 0x1_0000) as u16),
        4 => Step::Idle(r.value),
        5 => Step::Fetch(r.address),
        6 => Step::Restart(r.address),
        7 => Step::Instruction(
            r.version,
            isa_state(r.size),
            r.address,
            r.value,
            r.flag == 1,
        ),
        8 => Step::Pc(r.address),
        10 => Step::BlockRead(aligned(AccessSize::Word, r.address), words_of(r.value)),
        11 => Step::BlockWrite(aligned(AccessSize::Word, r.address), words_of(r.value)),
        _ => Step::Latch(r.value),
    }
}

// ---- the faults of a record

// The limit of a field that may hold any number.
const ANY: u32 = 0xFFFF_FFFF;

// What each kind allows: its sizes, bit s for size s; then the greatest flag, address and value, 0 where it doesn't use the
// field, and the least value. There is no kind 0, and no size fits it.
const KINDS: [[u32; 5]; 12] = [
    [0b00000, 0, 0, 0, 0], // 0, no kind
    [0b10110, 0, ANY, 0, 0], // 1 READ
    [0b10110, 0, ANY, ANY, 0], // 2 WRITE
    [0b00001, 0, 0, 0xFFFF, 0], // 3 WAITCNT
    [0b00001, 0, 0, ANY, 0], // 4 IDLE
    [0b00001, 0, ANY, 0, 0], // 5 FETCH
    [0b00001, 0, ANY, 0, 0], // 6 RESTART
    [0b10100, 1, ANY, ANY, 0], // 7 INSTRUCTION
    [0b00001, 0, ANY, 0, 0], // 8 PC
    [0b00001, 0, 0, ANY, 0], // 9 LATCH
    [0b10000, 0, ANY, 16, 1], // 10 BLOCK READ
    [0b10000, 0, ANY, 16, 1], // 11 BLOCK WRITE
];

// The last kind of a version's sheets.
fn last_kind(version: Version) -> u8
    ensures { result ≡ def.last_kind version }
{
    match version {
        Version::One => 9,
        Version::Two => 11,
    }
}

impl<'a> Sheet<'a> {
    // The least faulty record, if one is faulty, in one pass. A record is held against the row of its kind; the flag and the zero
    // byte behind it are one number. The kind is not branched on: kinds follow each other in no order, so that a branch would
    // often be guessed wrong. The table is put in place once, not for each record.
    #[tactic(auto, unfolding(model::specs::Sheet::records_from, model::specs::Sheet::first_of))]
    pub fn least_faulty(self) -> Option<usize>
        ensures first { unwrap_or result (def.record_count self.entry.bytes.now)
            ≡ def.least_faulty (def.records_of self.entry.bytes.now) }
        ensures within { IfSome result (λ k. k < def.record_count self.entry.bytes.now) }
    {
        let kinds = KINDS;
        let last = last_kind(self.version);
        let n = self.count();
        for k in 0..n {
            let r = self.record_at(k);
            // no row for the kind, or no bit for the size
            if (r.kind > last) | (r.size > 4) {
                return Some(k);
            }
            let [sizes, flag, address, value, least] = kinds[r.kind as usize];
            let fits = ((sizes >> r.size as u32) % 2 == 1)
                & (u16::from_le_bytes([r.flag, r.zero_byte]) as u32 <= flag)
                & (r.address <= address)
                & (r.value <= value)
                & (least <= r.value);
            if !fits {
                return Some(k);
            }
        }
        None
    }
}
