// The one loop over the records of a sheet: each step gets the board and the store that the step before left, and its answer is
// written where it belongs. Whatever runs a sheet runs it by this loop, so its contract is about a beginning of the sheet.
ghost use Rattle.std.specs.Prelude.{◌≡◌};
ghost use Rattle.model.specs.Waitcnt.{rom_waits_of};
ghost use Rattle.step.specs.Begun.{state_from};
ghost use Rattle.bts.specs.Beginning.{Runs, Ends};

use loads::Media;
use model::ANSWER_LENGTH;
use records::answer::answer_bytes;
use records::sheet::{Sheet, step_of};
use step::machine::Machine;
use step::take_step;
use waits::waitcnt::WaitCnt;

// The waits after a step: built anew only where the register changed.
fn waits_after(waits: [[u8; 2]; 3], old: u16, new: u16) -> [[u8; 2]; 3]
    requires { waits ≡ rom_waits_of old }
    ensures { result ≡ rom_waits_of new }
{
    if old == new {
        return waits;
    }
    waits::rom_waits(WaitCnt { raw: new })
}

// What a beginning of a sheet leaves besides the halfwords, the store and the answers: how many steps it has, and their cycles.
#[derive(Clone, Copy)]
pub struct Done {
    pub machine: Machine,
    pub steps: usize,
    pub total: u64,
}

// The first n records of a sheet. Halfwords, store and answers are written, each by another function, so that they come apart.
pub fn run_core(
    sheet: Sheet<'_>,
    n: usize,
    machine: Machine,
    halves: &mut [u16; 8],
    store: &mut [u8],
    media: &Media<'_>,
    answers: &mut [u8],
) -> Done
    requires { Runs media.now.lengths n sheet.bytes.now store.old answers.old }
    ensures { Ends media.now
        (state_from machine.clock halves.old machine.contents store.old)
        sheet.entry.bytes.now n answers.old
        result halves.new store.new answers.new }
{
    let mut waits = waits::rom_waits(WaitCnt {
        raw: machine.clock.waitcnt,
    });
    let mut current = machine;
    let mut total: u64 = 0;
    // by number: the records and the answers go by strides of their own, and what is written is known up to k
    for k in 0..n {
        let step = step_of(sheet.record_at(k));
        let taken = take_step(current, waits, halves, step, store, media);
        let answer = taken.answer;
        let at = ANSWER_LENGTH * k;
        answers[at..at + ANSWER_LENGTH].copy_from_slice(&answer_bytes(answer));
        let after = taken.machine;
        let fresh = waits_after(waits, current.clock.waitcnt, after.clock.waitcnt);
        waits = fresh;
        current = after;
        total += answer.cycles as u64;
    }
    Done {
        machine: current,
        steps: n,
        total,
    }
}
