// The run of a sheet over a lent board and lent memories, `bts_run`, the same under a tariff, `bts_run_tariff`, and with the
// grounds of its prices, `bts_run_grounds`, and the price of a sheet before it is run, `bts_preview`. The crate `bts_c` exports
// them to C under these names.
#![tactic(auto)]

mod run;

ghost use Rattle.std.specs.Prelude.{◌≡◌};
ghost use Rattle.model.specs.Verdict.{Accepted};
ghost use Rattle.model.specs.Outcome.{verdict, outcome_by, outcome};
ghost use Rattle.model.specs.Tariff.{bill};
ghost use Rattle.model.specs.Preview.{preview};
ghost use Rattle.model.specs.Grounds.{explain};
ghost use Rattle.examine.specs.Lent.{lending, tariffing, asking, explaining};
ghost use Rattle.bts.specs.Told.{told, bill_for, report_of_refusal, bill_of_refusal};
ghost use Rattle.bts.specs.Reported.{lent_by, reported, reported_bill, reported_preview};
ghost use Rattle.bts.specs.Explained.{reported_grounds};

use examine::Lent;
use loads::Media;
use model::{BOARD_LENGTH, Lengths, Refusal};
use records::sheet::Sheet;
use step::machine::Machine;

// What a run gives back: 0, the number of records and the total; or the refusal's number and index, and 0. It is C's layout, so
// that a number stands for the refusal.
#[repr(C)]
#[derive(Clone, Copy)]
pub struct Report {
    pub number: u32,
    pub index: u32,
    pub total: u64,
}

// What a run under a tariff gives back: what a run does, and what its total costs, in cents.
#[repr(C)]
#[derive(Clone, Copy)]
pub struct Bill {
    pub number: u32,
    pub index: u32,
    pub total: u64,
    pub charge: u64,
}

impl Report {
    // The bill of a run that costs so much.
    pub fn billed(self, charge: u64) -> Bill
        ensures { result ≡ bill_for self charge }
    {
        Bill {
            number: self.number,
            index: self.index,
            total: self.total,
            charge,
        }
    }
}

// A refused call is told its refusal, and no total.
impl From<Refusal> for Report {
    ghost from_gives = { λ refusal report. report ≡ report_of_refusal refusal };

    fn from(refusal: Refusal) -> Report {
        Report {
            number: examine::refusal_number(refusal),
            // The low 32 bits, since a `Refusal` may hold any index; a refused call's fits: a sheet has at most 4,096 records.
            index: (examine::refusal_index(refusal) & 0xFFFF_FFFF) as u32,
            total: 0,
        }
    }
}

// Nor a charge.
impl From<Refusal> for Bill {
    ghost from_gives = { λ refusal bill. bill ≡ bill_of_refusal refusal };

    fn from(refusal: Refusal) -> Bill {
        Report::from(refusal).billed(0)
    }
}

// Runs the records of an accepted sheet. What was accepted is as long as a board.
fn run_accepted(
    sheet: Sheet<'_>,
    board: &mut [u8],
    store: &mut [u8],
    media: &Media<'_>,
    answers: &mut [u8],
) -> Report
    requires { verdict (lent_by sheet.bytes.now board.old store.old media.now answers.old) ≡ Accepted }
    ensures { reported result board.new store.new answers.new
        ≡ outcome_by (lent_by sheet.entry.bytes.now board.old store.old media.now answers.old) Accepted }
{
    let n = sheet.count();
    let board = board.as_mut_array().unwrap();
    let machine = Machine {
        clock: board::load_clock(board),
        contents: board::load_contents(board),
    };
    let mut halves = board::load_halves(board);
    let done = run::run_core(sheet, n, machine, &mut halves, store, media, answers);
    let left = done.machine;
    board::put_board(board, left.clock, halves, left.contents);
    Report {
        number: 0,
        index: n as u32,
        total: done.total,
    }
}

// Runs a sheet, if the examination accepts what is lent. Each operation writes out its `Lent`: tried, a function that makes it
// for the three calls for one lifetime of what is lent to them and what they lend on, which the borrow checker doesn't cover. And
// the exported functions write out the `Lengths`: a function would take the same seven, by their places and not by their names.
#[tactic(auto, using(examine::specs::Verdicts::index_small), unfolding(model::specs::Outcome::outcome))]
fn run_examined(
    sheet: &[u8],
    board: &mut [u8],
    store: &mut [u8],
    media: &Media<'_>,
    answers: &mut [u8],
) -> Result<Report, Refusal>
    ensures { reported (told report_of_refusal result) board.new store.new answers.new
        ≡ outcome (lent_by sheet.now board.old store.old media.now answers.old) }
{
    let lent = Lent {
        sheet,
        board,
        store,
        bios: media.bios,
        rom: media.rom,
        answers,
        lengths: media.lengths,
    };
    let accepted = lent.examine()?;
    Ok(run_accepted(accepted, board, store, media, answers))
}

pub fn bts_run(
    sheet: &[u8],
    board: &mut [u8],
    store: &mut [u8],
    bios: &[u8],
    rom: &[u8],
    answers: &mut [u8],
    ewram: usize,
    iwram: usize,
    io: usize,
    palette: usize,
    vram: usize,
    oam: usize,
    sram: usize,
) -> Report
    ensures { reported result board.new store.new answers.new
        ≡ outcome (lending sheet.now board.old store.old bios.now
        rom.now answers.old
        (record { ewram = ewram; iwram = iwram; io = io; palette = palette; vram = vram; oam = oam; sram = sram })) }
{
    let lengths = Lengths {
        ewram,
        iwram,
        io,
        palette,
        vram,
        oam,
        sram,
    };
    let media = Media { bios, rom, lengths };
    run_examined(sheet, board, store, &media, answers).unwrap_or_else(Report::from)
}

// The same under a tariff: the run, and then the shares of its steps, from the cycles that stand in the answers.
// What is written comes apart, here as there.
#[tactic(auto, using(examine::specs::Verdicts::tariff_index_small), unfolding(model::specs::Tariff::bill))]
fn bill_examined(
    sheet: &[u8],
    board: &mut [u8],
    store: &mut [u8],
    media: &Media<'_>,
    answers: &mut [u8],
    shares: &mut [u8],
    rate: u32,
) -> Result<Bill, Refusal>
    ensures { reported_bill (told bill_of_refusal result) board.new store.new answers.new shares.new
        ≡ bill (tariffing (lent_by sheet.now board.old store.old media.now answers.old) shares.old rate) }
{
    let lent = Lent {
        sheet,
        board,
        store,
        bios: media.bios,
        rom: media.rom,
        answers,
        lengths: media.lengths,
    };
    let accepted = lent.examine_tariff(shares, rate)?;
    let report = run_accepted(accepted, board, store, media, answers);
    let run = tariff::RunCycles {
        answers,
        steps: report.index as usize,
        total: report.total,
    };
    tariff::put_shares(run, rate, shares);
    Ok(report.billed(tariff::charge(report.total, rate)))
}

pub fn bts_run_tariff(
    sheet: &[u8],
    board: &mut [u8],
    store: &mut [u8],
    bios: &[u8],
    rom: &[u8],
    answers: &mut [u8],
    shares: &mut [u8],
    ewram: usize,
    iwram: usize,
    io: usize,
    palette: usize,
    vram: usize,
    oam: usize,
    sram: usize,
    rate: u32,
) -> Bill
    ensures { reported_bill result board.new store.new answers.new shares.new
        ≡ bill (tariffing (lending sheet.now board.old store.old bios.now
        rom.now answers.old
        (record { ewram = ewram; iwram = iwram; io = io; palette = palette; vram = vram; oam = oam; sram = sram }))
        shares.old rate) }
{
    let lengths = Lengths {
        ewram,
        iwram,
        io,
        palette,
        vram,
        oam,
        sram,
    };
    let media = Media { bios, rom, lengths };
    bill_examined(sheet, board, store, &media, answers, shares, rate).unwrap_or_else(Bill::from)
}

// The same with the grounds of each step's price: the run, and then the grounds, from the clock that it began with and from its
// answers.
#[tactic(auto, using(examine::specs::Verdicts::grounds_index_small), unfolding(model::specs::Grounds::explain))]
fn explain_examined(
    sheet: &[u8],
    board: &mut [u8],
    store: &mut [u8],
    media: &Media<'_>,
    answers: &mut [u8],
    grounds: &mut [u8],
) -> Result<Report, Refusal>
    ensures { reported_grounds (told report_of_refusal result) board.new store.new answers.new grounds.new
        ≡ explain (explaining (lent_by sheet.now board.old store.old media.now answers.old) grounds.old) }
{
    let lent = Lent {
        sheet,
        board,
        store,
        bios: media.bios,
        rom: media.rom,
        answers,
        lengths: media.lengths,
    };
    let accepted = lent.examine_grounds(grounds)?;
    let clock = board::load_clock(board.as_array().unwrap());
    let report = run_accepted(accepted, board, store, media, answers);
    let steps = report.index as usize;
    let run = grounds::PastRun {
        sheet: accepted,
        steps,
        clock,
        answers,
    };
    grounds::put_grounds(run, grounds);
    Ok(report)
}

pub fn bts_run_grounds(
    sheet: &[u8],
    board: &mut [u8],
    store: &mut [u8],
    bios: &[u8],
    rom: &[u8],
    answers: &mut [u8],
    grounds: &mut [u8],
    ewram: usize,
    iwram: usize,
    io: usize,
    palette: usize,
    vram: usize,
    oam: usize,
    sram: usize,
) -> Report
    ensures { reported_grounds result board.new store.new answers.new grounds.new
        ≡ explain (explaining (lending sheet.now board.old store.old bios.now
        rom.now answers.old
        (record { ewram = ewram; iwram = iwram; io = io; palette = palette; vram = vram; oam = oam; sram = sram }))
        grounds.old) }
{
    let lengths = Lengths {
        ewram,
        iwram,
        io,
        palette,
        vram,
        oam,
        sram,
    };
    let media = Media { bios, rom, lengths };
    explain_examined(sheet, board, store, &media, answers, grounds).unwrap_or_else(Report::from)
}

// The price of an accepted sheet: a run over no memories on a copy of the board, of whose values only those stay that the clock
// tells. What the other columns show, the clock tells.
#[tactic(auto, using(examine::specs::Verdicts::preview_index_small), unfolding(model::specs::Preview::preview))]
fn preview_examined(sheet: &[u8], board: &[u8], answers: &mut [u8]) -> Result<Report, Refusal>
    ensures { reported_preview (told report_of_refusal result) sheet.now board.now answers.new
        ≡ preview (asking sheet.now board.now answers.old) }
{
    let accepted = examine::examine_preview(sheet, board, answers)?;
    let mut spare: [u8; BOARD_LENGTH] = *board.as_array().unwrap();
    let mut store = [0u8; 0];
    let media = Media {
        bios: b"",
        rom: b"",
        lengths: Lengths::none(),
    };
    let report = run_accepted(accepted, &mut spare, &mut store, &media, answers);
    preview::put_values(accepted, report.index as usize, answers);
    Ok(report)
}

// At its end sheet and board are as they were, and the contract says so.
pub fn bts_preview(sheet: &[u8], board: &[u8], answers: &mut [u8]) -> Report
    ensures { reported_preview result sheet.now board.now answers.new ≡ preview (asking sheet.now board.now answers.old) }
{
    preview_examined(sheet, board, answers).unwrap_or_else(Report::from)
}
