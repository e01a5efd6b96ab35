// The contract's tariff: what cycles cost at a rate, and each step's share of what a run costs. From docs/RULES.md,
// "The charge and the shares".
#![tactic(auto)]

ghost use Rattle.std.specs.Prelude.{◌≡◌, ◌*◌, ◌≤◌, length};
ghost use Rattle.model.specs.Alike.{cycles_from};
ghost use Rattle.model.specs.Tariff as def;
ghost use Rattle.tariff.specs.Shares.{Payable, Summed};

use model::{ANSWER_LENGTH, RATE_CYCLES, SHARE_LENGTH};

// What cycles cost in millionths of a cent, with what rounds it up to the cent.
fn cost_of(cycles: u64, rate: u32) -> u64
    requires { Payable rate cycles }
    ensures { result ≡ def.cost rate cycles }
{
    cycles * rate as u64 + (RATE_CYCLES - 1)
}

// What they cost in cents, rounded up.
#[tactic(auto, unfolding(model::specs::Tariff::charge))]
pub fn charge(cycles: u64, rate: u32) -> u64
    requires { Payable rate cycles }
    ensures { result ≡ def.charge rate cycles }
{
    cost_of(cycles, rate) / RATE_CYCLES
}

// The answers of a run, and what their cycles come to. Whoever makes one shows it, by the run, so that what shares the charge
// asks nothing of the bytes.
#[derive(Clone, Copy)]
pub struct RunCycles<'a> {
    pub answers: &'a [u8],
    pub steps: usize,
    pub total: u64,
    ghost summed: { Summed steps total answers.now },
}

// The shares of a run's steps, from the cycles that stand in their answers. No step is rounded by itself: what is rounded is the
// charge up to it. From the last step to the first, since the charge of all is known, and the last answers are the ones at hand.
#[tactic(auto, using(crate::specs::Shares::begin, crate::specs::Shares::finish, crate::specs::Shares::billable))]
pub fn put_shares(run: RunCycles<'_>, rate: u32, shares: &mut [u8])
    requires { (rate ≤ def.max_rate) × (def.share_length * run.steps ≤ length shares.old) }
    ensures { shares.new ≡ def.shares_in shares.old rate (cycles_from run.entry.answers.now 0 run.entry.steps) run.entry.steps }
{
    let n = run.steps;
    let answers = run.answers;
    let mut cost = cost_of(run.total, rate);
    let mut due = cost / RATE_CYCLES;
    for k in (0..n).rev() {
        let cycles = le::read32(answers, ANSWER_LENGTH * k + 4);
        cost -= cycles as u64 * rate as u64;
        let before = cost / RATE_CYCLES;
        let at = SHARE_LENGTH * k;
        le::put64(&mut shares[at..at + SHARE_LENGTH], due - before);
        due = before;
    }
}
