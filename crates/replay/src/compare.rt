// Holds what a case left against what the sample has of it, and tells each field that differs. A comparison answers whether
// nothing differed, or that the sample ends before it.
ghost use Rattle.std.specs.Prelude.{◌≡◌, ◌↔◌, ℕ, List, IfOk, IsTrue};
ghost use Rattle.std.specs.Io.KnownBytes.{Consumes};

use crate::buffers::Buffers;
use crate::head::MOST_SECOND;
use crate::pattern;
use crate::pattern::Buffer;
use crate::sample::{BadSample, read_array, read_u32, read_u64};
use crate::space::Space;
use bts::Bill;
use le::{read32, read64, word_at};
use std::io::Read;

// One changed byte of the store: it is held against the sample, and then set back to what it was before the run.
fn undo_change<R: Read>(input: &mut R, store: &mut [u8], seed: u32) -> Result<bool, BadSample> {
    let change: [u8; 5] = read_array(input)?;
    let at = word_at(&change, 0) as usize;
    let Some(byte) = store.get_mut(at) else {
        return Err(BadSample);
    };
    let same = *byte == change[4];
    *byte = pattern::byte_at(at, seed, Buffer::Store);
    Ok(same)
}

fn undo_changes<R: Read>(
    input: &mut R,
    store: &mut [u8],
    seed: u32,
    count: u32,
) -> Result<bool, BadSample> {
    let mut same = true;
    for _ in 0..count {
        same &= undo_change(input, store, seed)?;
    }
    Ok(same)
}

// Where the differences of a case are told, and its number.
#[derive(Drop)]
pub struct Case<'a, P: Print> {
    pub rt: &'a P,
    pub number: u32,
}

impl<'a, P: Print> Case<'a, P> {
    // Tells a difference, and hands on whether it is none. A line that can't be written stops nothing: the count at the end has
    // its case too.
    fn told(&self, what: &str, same: bool) -> bool
        ensures { result ≡ same }
    {
        if !same {
            let number = self.number;
            let _ = println!(self.rt; "case {number}: {what}");
        }
        same
    }

    fn compare_report<R: Read>(&self, input: &mut R, got: Bill) -> Result<bool, BadSample> {
        let want: [u8; 16] = read_array(input)?;
        let same_number = self.told("number", got.number == read32(&want, 0));
        let same_index = self.told("index", got.index == read32(&want, 4));
        let same_total = self.told("total", got.total == read64(&want, 8));
        Ok(same_number && same_index && same_total)
    }

    fn compare_charge<R: Read>(&self, input: &mut R, got: u64) -> Result<bool, BadSample> {
        let charge = read_u64(input)?;
        Ok(self.told("charge", got == charge))
    }

    fn compare_bytes<R: Read>(
        &self,
        input: &mut R,
        what: &str,
        got: &[u8],
        wanted: &mut Space<MOST_SECOND>,
    ) -> Result<bool, BadSample>
        ensures { IfOk result (λ same. (bytes : List ℕ) × (IsTrue same ↔ (got.now ≡ bytes))
            × Consumes (R.remaining input.old) (R.remaining input.new) bytes) }
    {
        wanted.read(input, got.len())?;
        Ok(self.told(what, *got == *wanted.used()))
    }

    // With its changes undone, the store must be as it was before the run, so no second store is needed to compare with.
    fn compare_store<R: Read>(
        &self,
        input: &mut R,
        store: &mut [u8],
        seed: u32,
    ) -> Result<bool, BadSample> {
        let count = read_u32(input)?;
        let undone = undo_changes(input, store, seed, count)?;
        let rest = pattern::is_filled(store, seed, Buffer::Store);
        Ok(self.told("store", undone && rest))
    }

    // Compares what a run left, in the sample's order.
    pub(crate) fn compare<R: Read>(
        &self,
        input: &mut R,
        bill: Bill,
        left: &mut Buffers,
        seed: u32,
    ) -> Result<bool, BadSample> {
        let report = self.compare_report(input, bill)?;
        let charge = self.compare_charge(input, bill.charge)?;
        let wanted = &mut left.wanted;
        let board = self.compare_bytes(input, "board", left.board.used(), wanted)?;
        let answers = self.compare_bytes(input, "answers", left.answers.used(), wanted)?;
        let second = self.compare_bytes(input, "shares or grounds", left.second.used(), wanted)?;
        let store = &mut left.store;
        let store = self.compare_store(input, &mut store.bytes[..store.len.n], seed)?;
        Ok(report && charge && board && answers && second && store)
    }
}
