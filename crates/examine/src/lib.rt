// What is examined before a run or a preview: the refusals, in the order of the table in docs/RULES.md,
// "What a run is refused with", and the tariff's. Nothing is written here.
#![tactic(auto)]

ghost use Rattle.std.specs.Prelude.{◌≡◌, ◌++◌, ◌≤◌, IfOk};
ghost use Rattle.model.specs.Sheet.{max_records};
ghost use Rattle.model.specs.Outcome as def;
ghost use Rattle.model.specs.Tariff as tariff;
ghost use Rattle.model.specs.Preview as preview;
ghost use Rattle.model.specs.Grounds as reasons;
ghost use Rattle.examine.specs.Lent.{lent, tariffing, asking, explaining, verdict_of};
ghost use Rattle.examine.specs.Verdicts.{RoomAsked, rest_rows};

use model::{
    ANSWER_LENGTH, FIRST_VERSION, LATEST_VERSION, Lengths, MAX_RATE, Refusal, SHARE_LENGTH,
};
use records::sheet;
use records::sheet::Sheet;

// No memory is longer than its physical size, and the seven add up to the store. Each is tested before they are added, so
// that no sum wraps.
#[tactic(auto, unfolding(model::specs::Outcome::sizes_fit))]
fn lengths_fit(lengths: Lengths, store: usize, bios: usize, rom: usize) -> bool
    ensures { result ≡ def.sizes_fit lengths store bios rom }
{
    bios <= region::BIOS_SIZE
        && rom <= region::ROM_WINDOW_SIZE
        && lengths.ewram <= region::EWRAM_SIZE
        && lengths.iwram <= region::IWRAM_SIZE
        && lengths.io <= region::IO_SIZE
        && lengths.palette <= region::PALETTE_SIZE
        && lengths.vram <= region::VRAM_SIZE
        && lengths.oam <= region::OAM_SIZE
        && lengths.sram <= region::SRAM_WINDOW_SIZE
        && lengths.ewram
            + lengths.iwram
            + lengths.io
            + lengths.palette
            + lengths.vram
            + lengths.oam
            + lengths.sram
            == store
}

// ---- the rows of the table, in parts: what another operation examines is another choice of these

// Mark, version and shape. What is accepted is a `Sheet`, whose records can be read.
pub fn examine_sheet(sheet: &[u8]) -> Result<Sheet<'_>, Refusal>
    ensures verdict { verdict_of result ≡ def.first_row (def.sheet_rows sheet.now) }
    ensures same { IfOk result (λ s. s.bytes.now ≡ sheet.now) }
{
    if !sheet::is_marked(sheet) {
        return Err(Refusal::BadMark);
    }
    let version = sheet::version_of(sheet);
    if version < FIRST_VERSION || version > LATEST_VERSION {
        return Err(Refusal::BadVersion);
    }
    if !sheet::is_shaped(sheet) {
        return Err(Refusal::BadShape);
    }
    Ok(Sheet {
        bytes: sheet,
        version: sheet::rules_of(sheet),
    })
}

pub fn examine_lengths(
    lengths: Lengths,
    store: usize,
    bios: usize,
    rom: usize,
) -> Result<(), Refusal>
    ensures { result ≡ def.first_row (def.lengths_rows lengths store bios rom) }
{
    if !lengths_fit(lengths, store, bios, rom) {
        return Err(Refusal::BadLengths);
    }
    Ok(())
}

pub fn examine_board(board: &[u8]) -> Result<(), Refusal>
    ensures { result ≡ def.first_row (def.board_rows board.now) }
{
    if !board::is_sound(board) {
        return Err(Refusal::UnsoundBoard);
    }
    Ok(())
}

// Room for the answers of n records.
pub fn examine_answers(n: usize, answers: usize) -> Result<(), Refusal>
    requires { n ≤ max_records }
    ensures { result ≡ def.first_row (def.answers_rows n answers) }
{
    if answers < ANSWER_LENGTH * n {
        return Err(Refusal::ShortAnswers);
    }
    Ok(())
}

// Room for the answers of n records, and for `each` bytes a record in a second buffer.
pub fn examine_room(n: usize, answers: usize, each: usize, second: usize) -> Result<(), Refusal>
    requires { RoomAsked n each }
    ensures { result ≡ def.first_row (def.room_rows n answers each second) }
{
    if second < each * n {
        return Err(Refusal::ShortAnswers);
    }
    examine_answers(n, answers)
}

// The records of a sheet.
pub fn examine_records(sheet: Sheet<'_>) -> Result<(), Refusal>
    ensures { result ≡ def.first_row (def.records_rows sheet.entry.bytes.now) }
{
    match sheet.least_faulty() {
        Some(k) => Err(Refusal::FaultyRecord(k)),
        None => Ok(()),
    }
}

// The rate of a tariff.
pub fn examine_rate(rate: u32) -> Result<(), Refusal>
    ensures { result ≡ def.first_row (tariff.rate_rows rate) }
{
    if rate == 0 || rate > MAX_RATE {
        return Err(Refusal::BadRate);
    }
    Ok(())
}

// ---- the tables

// The rows with which the table of every run begins: the sheet's head, the lengths, the board. Of store, BIOS and ROM the lengths
// alone are asked, so that a caller need not have them yet.
pub fn examine_lent<'s>(
    sheet: &'s [u8],
    board: &[u8],
    lengths: Lengths,
    store: usize,
    bios: usize,
    rom: usize,
) -> Result<Sheet<'s>, Refusal>
    ensures verdict { verdict_of result ≡ def.first_row (def.sheet_rows sheet.now
        ++ (def.lengths_rows lengths store bios rom ++ def.board_rows board.now)) }
    ensures same { IfOk result (λ s. s.bytes.now ≡ sheet.now) }
{
    let accepted = examine_sheet(sheet)?;
    examine_lengths(lengths, store, bios, rom)?;
    examine_board(board)?;
    Ok(accepted)
}

// The rows with which the table of a run and of a preview ends: room for the answers, and the records.
fn examine_rest(sheet: Sheet<'_>, answers: usize) -> Result<(), Refusal>
    ensures { result ≡ def.first_row (rest_rows sheet.entry.bytes.now answers) }
{
    examine_answers(sheet.count(), answers)?;
    examine_records(sheet)
}

// All that a caller lends to a run, as it is examined: nothing of it is written. The sheet has a lifetime of its own, since what
// is accepted goes on as a `Sheet` while the rest is written.
#[derive(Clone, Copy)]
pub struct Lent<'s, 'a> {
    pub sheet: &'s [u8],
    pub board: &'a [u8],
    pub store: &'a [u8],
    pub bios: &'a [u8],
    pub rom: &'a [u8],
    pub answers: &'a [u8],
    pub lengths: Lengths,
}

impl<'s, 'a> Lent<'s, 'a> {
    // The rows with which the table of every run begins.
    fn examine_lent(self) -> Result<Sheet<'s>, Refusal>
        ensures verdict { verdict_of result ≡ def.first_row (def.lent_rows (lent self.entry)) }
        ensures same { IfOk result (λ s. s.bytes.now ≡ self.entry.sheet.now) }
    {
        examine_lent(
            self.sheet,
            self.board,
            self.lengths,
            self.store.len(),
            self.bios.len(),
            self.rom.len(),
        )
    }

    // The first row of the run's table that holds.
    #[tactic(auto, unfolding(model::specs::Outcome::verdict))]
    pub fn examine(self) -> Result<Sheet<'s>, Refusal>
        ensures verdict { verdict_of result ≡ def.verdict (lent self.entry) }
        ensures same { IfOk result (λ s. s.bytes.now ≡ self.entry.sheet.now) }
    {
        let sheet = self.examine_lent()?;
        examine_rest(sheet, self.answers.len())?;
        Ok(sheet)
    }

    // The first row of the table of a run with a second buffer, which has `each` bytes a record.
    fn examine_second(self, each: usize, second: usize) -> Result<Sheet<'s>, Refusal>
        requires { each ≤ 0xFFFF }
        ensures verdict { verdict_of result ≡ def.first_row (def.second_rows (lent self.entry) each second) }
        ensures same { IfOk result (λ s. s.bytes.now ≡ self.entry.sheet.now) }
    {
        let sheet = self.examine_lent()?;
        examine_room(sheet.count(), self.answers.len(), each, second)?;
        examine_records(sheet)?;
        Ok(sheet)
    }

    // The first row of the tariff's table that holds: the run's, with room for the shares, and then the rate.
    #[tactic(auto, unfolding(model::specs::Tariff::tariff_verdict))]
    pub fn examine_tariff(self, shares: &[u8], rate: u32) -> Result<Sheet<'s>, Refusal>
        ensures verdict { verdict_of result ≡ tariff.tariff_verdict (tariffing (lent self.entry) shares.now rate) }
        ensures same { IfOk result (λ s. s.bytes.now ≡ self.entry.sheet.now) }
    {
        let sheet = self.examine_second(SHARE_LENGTH, shares.len())?;
        examine_rate(rate)?;
        Ok(sheet)
    }

    // The first row of the table of a run with grounds that holds: the run's, with room for the grounds.
    #[tactic(auto, unfolding(model::specs::Grounds::grounds_verdict))]
    pub fn examine_grounds(self, grounds: &[u8]) -> Result<Sheet<'s>, Refusal>
        ensures verdict { verdict_of result ≡ reasons.grounds_verdict (explaining (lent self.entry) grounds.now) }
        ensures same { IfOk result (λ s. s.bytes.now ≡ self.entry.sheet.now) }
    {
        self.examine_second(model::GROUNDS_LENGTH, grounds.len())
    }
}

// The first row of a preview's table that holds: the run's without that of the lengths.
#[tactic(auto, unfolding(model::specs::Preview::preview_verdict))]
pub fn examine_preview<'s>(
    sheet: &'s [u8],
    board: &[u8],
    answers: &[u8],
) -> Result<Sheet<'s>, Refusal>
    ensures verdict { verdict_of result ≡ preview.preview_verdict (asking sheet.now board.now answers.now) }
    ensures same { IfOk result (λ s. s.bytes.now ≡ sheet.now) }
{
    let accepted = examine_sheet(sheet)?;
    examine_board(board)?;
    let room = answers.len();
    examine_rest(accepted, room)?;
    Ok(accepted)
}

// The table's number of a refusal, which reports and bills have; a `From` would stand in model.
pub fn refusal_number(r: Refusal) -> u32
    ensures { result ≡ def.refusal_number r }
{
    match r {
        Refusal::BadMark => 1,
        Refusal::BadVersion => 2,
        Refusal::BadShape => 3,
        Refusal::BadLengths => 4,
        Refusal::UnsoundBoard => 5,
        Refusal::ShortAnswers => 6,
        Refusal::FaultyRecord(_) => 7,
        Refusal::BadRate => 8,
    }
}

// The record that it names; 0 but for a faulty record.
pub fn refusal_index(r: Refusal) -> usize
    ensures { result ≡ def.refusal_index r }
{
    match r {
        Refusal::FaultyRecord(k) => k,
        _ => 0,
    }
}
