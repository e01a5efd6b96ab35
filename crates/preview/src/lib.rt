// Price before running: what is left to do to the answers of a run over no memories, so that they are a preview's. Only the
// values of INSTRUCTION are told by the clock; every other one is set to 0. From docs/RULES.md,
// "What a preview gives".
#![tactic(auto)]

ghost use Rattle.std.specs.Prelude.{◌≡◌, eqb, length};
ghost use Rattle.std.specs.Prelude.{if◌then◌else◌};
ghost use Rattle.model.specs.Sheet.{records_from};
ghost use Rattle.model.specs.BoardBytes.{answer_length};
ghost use Rattle.model.specs.Preview.{each_answer};
ghost use Rattle.preview.specs.Values.{clock_valued, Answered};

use model::ANSWER_LENGTH;
use records::sheet::Sheet;

// A value that is chosen, not jumped to: the kinds follow each other in no order, and a jump would often be guessed wrong.
fn told_value(kind: u8, value: u32) -> u32
    ensures { result ≡ (if eqb kind 7 then value else 0) }
{
    if kind == 7 { value } else { 0 }
}

// The value of an answer, which is a part of the caller's buffer, by the kind of its record.
#[tactic(auto, unfolding(crate::specs::Values::value_bytes))]
fn put_told(out: &mut [u8], kind: u8)
    requires { length out.old ≡ answer_length }
    ensures { out.new ≡ clock_valued kind out.old }
{
    let value = le::read32(out, 0);
    le::put32(&mut out[0..4], told_value(kind, value));
}

// The values of n answers, from the last to the first: the last are the ones at hand.
#[tactic(auto, using(crate::specs::Values::begin, crate::specs::Values::finish))]
pub fn put_values(sheet: Sheet<'_>, n: usize, answers: &mut [u8])
    requires { Answered n sheet.bytes.now answers.old }
    ensures { answers.new
        ≡ each_answer clock_valued (records_from sheet.entry.bytes.now 0 n) answers.old }
{
    for k in (0..n).rev() {
        let kind = sheet.kind_at(k);
        let at = ANSWER_LENGTH * k;
        put_told(&mut answers[at..at + ANSWER_LENGTH], kind);
    }
}
