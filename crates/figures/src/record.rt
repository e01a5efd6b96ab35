// A record of a figure's sheet, and the sheet of a list of records. From docs/RULES.md, "The sheet"
// and "The kinds of record".
ghost use Rattle.std.specs.Prelude.{◌≡◌, ◌+◌, ◌*◌, ◌≤◌, length, take, map};
ghost use Rattle.model.specs.Sheet.{header_length, record_length, records_from, step_of};
ghost use Rattle.model.specs.Laws.WrittenSheet.{header_bytes};
ghost use Rattle.model.specs.Wait.{access_size_of};
ghost use Rattle.figures.specs.Record.{record_in, plain_record, step_for};

use model::{AccessSize, HEADER_LENGTH, RECORD_LENGTH};

// Each kind of the first version, with the address and the value of those that have them.
#[derive(Clone, Copy)]
pub enum Record {
    Read(AccessSize, u32),
    Write(AccessSize, u32, u32),
    Waitcnt(u16),
    Idle(u32),
    Fetch(u32),
    Restart(u32),
    // An INSTRUCTION in either state: its address and the opcode there.
    Arm(u32, u32),
    Thumb(u32, u16),
    // PC sets the pc that gates the BIOS, LATCH what loads of the closed BIOS give.
    Pc(u32),
    Latch(u32),
}

#[tactic(auto, unfolding(model::specs::Wait::access_size_of))]
fn bytes_in(size: AccessSize) -> u8
    ensures { access_size_of result ≡ size }
{
    match size {
        AccessSize::Byte => 1,
        AccessSize::Half => 2,
        AccessSize::Word => 4,
    }
}

fn record_bytes(kind: u8, size: u8, address: u32, value: u32) -> [u8; RECORD_LENGTH]
    ensures { record_in result ≡ plain_record kind size address value }
{
    let [a0, a1, a2, a3] = address.to_le_bytes();
    let [v0, v1, v2, v3] = value.to_le_bytes();
    [kind, size, 0, 0, a0, a1, a2, a3, v0, v1, v2, v3]
}

impl Record {
    // The model reads the same of these bytes as the record says.
    #[tactic(auto, unfolding(model::specs::Sheet::step_of, model::specs::Sheet::isa_state))]
    fn to_bytes(self) -> [u8; RECORD_LENGTH]
        ensures { step_of (record_in result) ≡ step_for self }
    {
        match self {
            Record::Read(size, address) => record_bytes(1, bytes_in(size), address, 0),
            Record::Write(size, address, value) => record_bytes(2, bytes_in(size), address, value),
            Record::Waitcnt(value) => record_bytes(3, 0, 0, u32::from(value)),
            Record::Idle(cycles) => record_bytes(4, 0, 0, cycles),
            Record::Fetch(address) => record_bytes(5, 0, address, 0),
            Record::Restart(address) => record_bytes(6, 0, address, 0),
            Record::Arm(address, opcode) => record_bytes(7, 4, address, opcode),
            Record::Thumb(address, opcode) => record_bytes(7, 2, address, u32::from(opcode)),
            Record::Pc(address) => record_bytes(8, 0, address, 0),
            Record::Latch(value) => record_bytes(9, 0, 0, value),
        }
    }
}

// Records whose sheet is L bytes long. Whoever makes one shows that it is, so that the sheet has an array of its own length.
#[derive(Clone, Copy)]
pub(crate) struct Listed<'a, const L: usize> {
    pub records: &'a [Record],
    ghost whole: { L ≡ header_length + record_length * length records.now },
}

// Their sheet, of version 1.
pub(crate) fn sheet_of<const L: usize>(listed: Listed<'_, L>) -> [u8; L]
    ensures whole { length result ≡ header_length + record_length * length listed.entry.records.now }
    ensures header { take header_length result ≡ header_bytes 1 (length listed.entry.records.now) }
    ensures steps { map step_of (records_from result 0 (length listed.entry.records.now))
        ≡ map step_for listed.entry.records.now }
{
    let records = listed.records;
    let [low, high, ..] = records.len().to_le_bytes();
    let mut sheet = [0; L];
    // a slice of all of it, since no part can be lent of an array whose length is a parameter
    let bytes = &mut sheet[..];
    bytes[..HEADER_LENGTH].copy_from_slice(&[b'B', b'T', b'S', 1, 0, 0, low, high]);
    for (k, record) in records.iter().enumerate() {
        let at = HEADER_LENGTH + RECORD_LENGTH * k;
        bytes[at..at + RECORD_LENGTH].copy_from_slice(&record.to_bytes());
    }
    sheet
}
