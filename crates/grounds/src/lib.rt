// Why a step costs what it does: the grounds of the steps of a run, told behind it from its sheet, the clock that it began with
// and its answers. From docs/RULES.md, "The ground of a beat".
//
// A pass of its own, so that the run's loop is the same with grounds and without. What a ground needs of the clock is little: the
// prefetch count and the force flag stand in the answers, and the rest is carried along, a `Trail`.
#![tactic(auto)]

ghost use Rattle.std.specs.Prelude.{◌≡◌, ℕ, ◌*◌, ◌≤◌, [], ◌∷◌, ◌++◌, map, length, drop};
ghost use Rattle.model.specs.Laws.Bounds.{Short};
ghost use Rattle.model.specs.Sheet.{max_words, records_from, step_of};
ghost use Rattle.model.specs.Price as price;
ghost use Rattle.model.specs.Grounds as def;
ghost use Rattle.grounds.specs.Trail as trails;
ghost use Rattle.grounds.specs.Turns.{OfOneRun};

use model::{ANSWER_LENGTH, AccessSize, Clock, GROUNDS_LENGTH, Ground, IsaState, Region, Step};
use names::ground_byte;
use records::sheet::{Sheet, step_of};

pub mod names;

// ---- the beats of a step, of which there are at most two

// The ground of each.
#[derive(Clone, Copy)]
struct Beats {
    first: Ground,
    second: Option<Ground>,
}

fn one(first: Ground) -> Beats
    ensures { trails.grounds_of result ≡ first ∷ [] }
{
    Beats {
        first,
        second: None,
    }
}

fn two(first: Ground, second: Ground) -> Beats
    ensures { trails.grounds_of result ≡ first ∷ second ∷ [] }
{
    Beats {
        first,
        second: Some(second),
    }
}

// A second beat is one of a word alone.
fn wide(size: AccessSize, first: Ground, second: Ground) -> Beats
    ensures { trails.grounds_of result ≡ price.wide size first second }
{
    match size {
        AccessSize::Byte | AccessSize::Half => one(first),
        AccessSize::Word => two(first, second),
    }
}

// A half from ROM, which the buffer has or not.
#[tactic(auto, unfolding(model::specs::Grounds::half_ground))]
fn half_ground(hit: bool, forced: bool, addr: u32) -> Ground
    ensures { result ≡ def.half_ground (λ (a : ℕ). hit) forced addr }
{
    if hit {
        return Ground::BufferHit;
    }
    if waits::rom_force_nonseq(addr) {
        return Ground::ByBlock;
    }
    if forced {
        return Ground::ByFlag;
    }
    Ground::Sequential
}

// A fetch outside ROM.
#[tactic(auto, unfolding(model::specs::Grounds::plain_ground, model::specs::Region::decode))]
fn plain_ground(addr: u32) -> Ground
    ensures { result ≡ def.plain_ground addr }
{
    match region::decode(addr) {
        Region::Ewram => Ground::EwramBus,
        _ => Ground::Fast,
    }
}

// The first beat of a data access to ROM at a lowered address, where one would go on at `next`.
#[tactic(auto, unfolding(crate::specs::Trail::ground_at))]
fn first_ground(next: Option<u32>, low: u32) -> Ground
    ensures { result ≡ trails.ground_at next low }
{
    if waits::rom_force_nonseq(low) {
        return Ground::ByBlock;
    }
    if next == Some(low) {
        return Ground::Sequential;
    }
    Ground::ByAddress
}

// ---- what is carried from step to step

// Where the buffer's first halfword stands, or comes to stand, and where a data access goes on from the previous one, if there
// is one.
#[derive(Clone, Copy)]
struct Trail {
    front: u32,
    next: Option<u32>,
}

// The trail that a clock begins.
#[tactic(auto, unfolding(crate::specs::Trail::begins))]
fn begun(clock: Clock) -> Trail
    ensures { result ≡ trails.begins clock }
{
    let buffer = clock.prefetch;
    let front = if buffer.count == 0 {
        buffer.next_addr
    } else {
        buffer.head_addr
    };
    let next = match clock.previous.size {
        0 => None,
        size => Some(clock.previous.addr.wrapping_add(size)),
    };
    Trail { front, next }
}

// What the answers tell of the clock before a step: the prefetch count and the force flag.
#[derive(Clone, Copy)]
struct Before {
    count: u8,
    forced: bool,
}

#[tactic(auto, unfolding(crate::specs::Trail::before_step))]
fn before_step(clock: Clock, answers: &[u8], k: usize) -> Before
    requires { trails.Reaches k answers.now }
    ensures { result ≡ trails.before_step clock answers.now k }
{
    if k == 0 {
        let buffer = clock.prefetch;
        return Before {
            count: (buffer.count % 256) as u8,
            forced: clock.force_next_fetch_n,
        };
    }
    let at = ANSWER_LENGTH * k - ANSWER_LENGTH;
    Before {
        count: answers[at + 9],
        forced: answers[at + 10] == 1,
    }
}

// ---- an instruction

// The buffer's first halfword stands at the address.
fn hits(front: u32, count: u8, addr: u32) -> bool
    ensures { result ≡ trails.front_hits front count addr }
{
    (count != 0) & (addr / 2 * 2 == front)
}

#[tactic(auto, using(crate::specs::Pages::in_rom, crate::specs::Pages::outside), unfolding(model::specs::Grounds::half_ground))]
fn code_beats(front: u32, before: Before, isa: IsaState, addr: u32) -> Beats
    ensures { trails.grounds_of result
        ≡ def.fetch_grounds (trails.front_hits front before.count) before.forced isa addr }
{
    if !waits::in_window(addr) {
        return one(plain_ground(addr));
    }
    let first = half_ground(hits(front, before.count, addr), before.forced, addr);
    let next = addr.wrapping_add(2);
    let second = half_ground(hits(front, before.count, next), false, next);
    match isa {
        IsaState::Arm => two(first, second),
        IsaState::Thumb => one(first),
    }
}

// Behind an opcode from ROM the buffer goes on, whether it had the opcode or not.
#[tactic(auto, unfolding(crate::specs::Trail::code_front))]
fn code_front(front: u32, isa: IsaState, addr: u32) -> u32
    ensures { result ≡ trails.code_front front isa addr }
{
    let bytes = match isa {
        IsaState::Arm => 4,
        IsaState::Thumb => 2,
    };
    let behind = addr.wrapping_add(bytes) / 2 * 2;
    if waits::in_window(addr) {
        behind
    } else {
        front
    }
}

// ---- a data access

// By the region alone, but for the first beat in ROM.
fn data_beats(next: Option<u32>, size: AccessSize, addr: u32) -> Beats
    ensures { trails.grounds_of result ≡ trails.data_from next size addr }
{
    match region::decode(addr) {
        Region::Ewram => wide(size, Ground::EwramBus, Ground::EwramBus),
        Region::Palette | Region::Vram => wide(size, Ground::VideoBus, Ground::VideoBus),
        Region::GamePakRomWs0 | Region::GamePakRomWs1 | Region::GamePakRomWs2 => {
            let low = waits::aligned(size, addr);
            wide(size, first_ground(next, low), Ground::Sequential)
        }
        Region::GamePakSram => one(Ground::SramBus),
        Region::Bios
        | Region::UnusedLow
        | Region::Iwram
        | Region::Io
        | Region::Oam
        | Region::UnusedHigh => one(Ground::Fast),
    }
}

// The next access goes on behind it.
fn data_next(size: AccessSize, addr: u32) -> u32
    ensures { result ≡ trails.data_next size addr }
{
    waits::aligned(size, addr).wrapping_add(waits::size_bytes(size))
}

// ---- a step

// A byte a beat, the rest zero. The first eight bytes are stored at once: two bytes stored one by one into zeros take 1.40 of a
// run on INSTRUCTION in place of 1.30, and 1.45 on mixed kinds in place of 1.39.
fn put(out: &mut [u8], beats: Beats)
    requires { length out.old ≡ def.grounds_length }
    ensures { out.new ≡ trails.beats_of beats }
{
    let first = ground_byte(beats.first);
    let second = beats.second.map_or(0, ground_byte);
    out[0..8].copy_from_slice(&[first, second, 0, 0, 0, 0, 0, 0]);
    out[8..32].fill(0);
}

// Tells the grounds of a block's words, in order, into bytes that are 0, and where an access goes on behind the last. A
// word has one beat or two, and 16 of them fill the 32 bytes at most.
#[tactic(auto, using(crate::proofs::Words::same_room))]
fn put_block(out: &mut [u8], next: Option<u32>, addr: u32, words: u32) -> Option<u32>
    requires { (out.old ≡ def.beat_bytes []) × (words ≤ max_words) }
    ensures { trails.TellsBlock next addr words out.new result }
{
    let mut place: usize = 0;
    let mut from = next;
    let mut at = addr;
    for _ in 0..words {
        let beats = data_beats(from, AccessSize::Word, at);
        out[place] = ground_byte(beats.first);
        place += 1;
        if let Some(second) = beats.second {
            out[place] = ground_byte(second);
            place += 1;
        }
        from = Some(data_next(AccessSize::Word, at));
        at = at.wrapping_add(4);
    }
    from
}

// The trail behind a step that clears the previous access.
fn cleared(front: u32) -> Trail
    ensures { result ≡ trails.trail front trails.nowhere }
{
    Trail { front, next: None }
}

// The trail behind a step that has no grounds. FETCH takes from the buffer what it hits, RESTART has it start anew, and like
// WAITCNT they clear the previous access.
fn passed(trail: Trail, step: Step, taken: u8) -> Trail
    ensures { result ≡ trails.passes step trail taken }
{
    match step {
        Step::Waitcnt(_) => cleared(trail.front),
        Step::Fetch(_) => cleared(trail.front.wrapping_add(2 * taken as u32)),
        Step::Restart(addr) => cleared(addr / 2 * 2),
        _ => trail,
    }
}

// Tells the grounds of a step, and follows the trail over it. `taken` is its hits byte.
fn tell(out: &mut [u8], trail: Trail, before: Before, step: Step, taken: u8) -> Trail
    requires { (length out.old ≡ def.grounds_length) × Short step }
    ensures { trails.Tells trail before step taken out.new result }
{
    match step {
        Step::Instruction(_, isa, addr, ..) => {
            put(out, code_beats(trail.front, before, isa, addr));
            cleared(code_front(trail.front, isa, addr))
        }
        Step::Read(size, addr) | Step::Write(size, addr, _) => {
            put(out, data_beats(trail.next, size, addr));
            Trail {
                next: Some(data_next(size, addr)),
                ..trail
            }
        }
        Step::BlockRead(addr, words) | Step::BlockWrite(addr, words) => {
            out.fill(0);
            let next = put_block(out, trail.next, addr, words);
            Trail { next, ..trail }
        }
        _ => {
            out.fill(0);
            passed(trail, step, taken)
        }
    }
}

// A run that is over: its sheet, how many of its records were run, the clock that it began with, a sound one, and its answers.
// Whoever makes one shows that they belong together, so that what tells the grounds asks nothing of the bytes.
#[derive(Clone, Copy)]
pub struct PastRun<'a> {
    pub sheet: Sheet<'a>,
    pub steps: usize,
    pub clock: Clock,
    pub answers: &'a [u8],
    ghost told: { OfOneRun clock steps sheet.bytes.now answers.now },
}

// The grounds of a run's steps.
#[tactic(auto, using(crate::specs::Turns::same_room, model::proofs::Laws::Limits::short_step))]
pub fn put_grounds(run: PastRun<'_>, grounds: &mut [u8])
    requires { def.grounds_length * run.steps ≤ length grounds.old }
    ensures { grounds.new
        ≡ def.grounds_bytes (def.grounds_after run.entry.clock
        (map step_of (records_from run.entry.sheet.bytes.now 0 run.entry.steps)))
        ++ drop (def.grounds_length * run.entry.steps) grounds.old }
{
    let mut trail = begun(run.clock);
    // by number: records, answers and grounds go by strides of their own, and the answer before tells the clock
    for k in 0..run.steps {
        let before = before_step(run.clock, run.answers, k);
        let record = run.sheet.record_at(k);
        let step = step_of(record);
        let at = GROUNDS_LENGTH * k;
        trail = tell(
            &mut grounds[at..at + GROUNDS_LENGTH],
            trail,
            before,
            step,
            run.answers[ANSWER_LENGTH * k + 8],
        );
    }
}
