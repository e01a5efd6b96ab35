// What a case lends to the library: each buffer is as long as the head says.
ghost use Rattle.std.specs.Prelude.{◌≡◌, IfOk};
ghost use Rattle.model.specs.Outcome.{outcome};
ghost use Rattle.model.specs.Tariff.{bill};
ghost use Rattle.model.specs.Preview as model;
ghost use Rattle.model.specs.Grounds.{explain};
ghost use Rattle.bts.specs.Reported.{reported, reported_bill, reported_preview};
ghost use Rattle.bts.specs.Explained.{reported_grounds};
ghost use Rattle.replay.specs.Space.{in_use};
ghost use Rattle.replay.specs.Buffers.{IsSetUp};
ghost use Rattle.replay.specs.Ran as given;

use crate::head::{
    Head, MOST_ANSWERS, MOST_BIOS, MOST_BOARD, MOST_ROM, MOST_SECOND, MOST_SHEET, MOST_STORE,
    Operation,
};
use crate::pattern::Buffer;
use crate::sample::BadSample;
use crate::space::Space;
use bts::Bill;
use model::Lengths;
use std::io::Read;

#[derive(Drop)]
pub struct Buffers {
    pub sheet: Space<MOST_SHEET>,
    pub board: Space<MOST_BOARD>,
    pub store: Space<MOST_STORE>,
    pub bios: Space<MOST_BIOS>,
    pub rom: Space<MOST_ROM>,
    pub answers: Space<MOST_ANSWERS>,
    // The shares or the grounds.
    pub second: Space<MOST_SECOND>,
    // What the sample has of one of these after the run. None that it has is longer.
    pub wanted: Space<MOST_SECOND>,
}

// What has no tariff is told as a bill that charges nothing. A function an operation: their parameters are C's, each its own.
impl Buffers {
    // Reads the sheet and the board, and makes the rest.
    pub(crate) fn read<R: Read>(&mut self, input: &mut R, head: Head) -> Result<(), BadSample>
        ensures { IfOk result (λ _. IsSetUp head self.new) }
    {
        let n = head.buffers;
        let seed = head.asked.seed;
        self.sheet.read(input, n.sheet)?;
        self.board.read(input, n.board)?;
        self.store.fill(n.store, seed, Buffer::Store)?;
        self.bios.fill(n.bios, seed, Buffer::Bios)?;
        self.rom.fill(n.rom, seed, Buffer::Rom)?;
        self.answers.fill(n.answers, seed, Buffer::Answers)?;
        self.second.fill(n.second, seed, Buffer::Second)
    }

    fn run_plain(&mut self, x: Lengths) -> Bill
        ensures { reported (given.uncharged result) (in_use self.new.board) (in_use self.new.store) (in_use self.new.answers)
            ≡ outcome (given.lent_in_case x self.old) }
    {
        let board = &mut self.board;
        let store = &mut self.store;
        let answers = &mut self.answers;
        bts::bts_run(
            self.sheet.used(),
            &mut board.bytes[..board.len.n],
            &mut store.bytes[..store.len.n],
            self.bios.used(),
            self.rom.used(),
            &mut answers.bytes[..answers.len.n],
            x.ewram,
            x.iwram,
            x.io,
            x.palette,
            x.vram,
            x.oam,
            x.sram,
        )
        .billed(0)
    }

    fn run_tariff(&mut self, x: Lengths, rate: u32) -> Bill
        ensures { reported_bill result (in_use self.new.board) (in_use self.new.store) (in_use self.new.answers)
            (in_use self.new.second)
            ≡ bill (record { run = given.lent_in_case x self.old; shares = in_use self.old.second; rate = rate }) }
    {
        let board = &mut self.board;
        let store = &mut self.store;
        let answers = &mut self.answers;
        let second = &mut self.second;
        bts::bts_run_tariff(
            self.sheet.used(),
            &mut board.bytes[..board.len.n],
            &mut store.bytes[..store.len.n],
            self.bios.used(),
            self.rom.used(),
            &mut answers.bytes[..answers.len.n],
            &mut second.bytes[..second.len.n],
            x.ewram,
            x.iwram,
            x.io,
            x.palette,
            x.vram,
            x.oam,
            x.sram,
            rate,
        )
    }

    fn run_grounds(&mut self, x: Lengths) -> Bill
        ensures { reported_grounds (given.uncharged result) (in_use self.new.board) (in_use self.new.store)
            (in_use self.new.answers) (in_use self.new.second)
            ≡ explain (record { run = given.lent_in_case x self.old; grounds = in_use self.old.second }) }
    {
        let board = &mut self.board;
        let store = &mut self.store;
        let answers = &mut self.answers;
        let second = &mut self.second;
        bts::bts_run_grounds(
            self.sheet.used(),
            &mut board.bytes[..board.len.n],
            &mut store.bytes[..store.len.n],
            self.bios.used(),
            self.rom.used(),
            &mut answers.bytes[..answers.len.n],
            &mut second.bytes[..second.len.n],
            x.ewram,
            x.iwram,
            x.io,
            x.palette,
            x.vram,
            x.oam,
            x.sram,
        )
        .billed(0)
    }

    fn preview(&mut self) -> Bill
        ensures { reported_preview (given.uncharged result) (in_use self.new.sheet) (in_use self.new.board)
            (in_use self.new.answers)
            ≡ model.preview (record {
              sheet = in_use self.old.sheet;
              board = in_use self.old.board;
              answers = in_use self.old.answers;
            }) }
    {
        let answers = &mut self.answers;
        bts::bts_preview(
            self.sheet.used(),
            self.board.used(),
            &mut answers.bytes[..answers.len.n],
        )
        .billed(0)
    }

    // Does what the case asks.
    pub(crate) fn run(&mut self, head: Head) -> Bill
        ensures { given.RanAs head.asked.operation head self.old result self.new }
    {
        let lengths = head.memories;
        match head.asked.operation {
            Operation::Run => self.run_plain(lengths),
            Operation::RunTariff => self.run_tariff(lengths, head.asked.rate),
            Operation::Preview => self.preview(),
            Operation::RunGrounds => self.run_grounds(lengths),
        }
    }
}
