// One step of a run: what a record does to the board and the store, and its answer. Each step stands for the Rust's call that
// the table of docs/RULES.md, "The kinds of record", names.
#![tactic(auto)]

ghost use Rattle.std.specs.Prelude.{◌≡◌, ◌-◌, ◌*◌, ◌<◌, ◌≤◌, [], length};
ghost use Rattle.model.specs.Waitcnt.{rom_waits_of, sram_waits};
ghost use Rattle.model.specs.Wait.{size_bytes_of, kind_at};
ghost use Rattle.model.specs.Price.{price, previously, kind_after, data_beats_in, block_cycles_of};
ghost use Rattle.model.specs.Load.{last_word_of};
ghost use Rattle.model.specs.Laws.Bounds.{Short};
ghost use Rattle.model.specs.Step as steps;
ghost use Rattle.model.specs.declared.IsaState.TheVariants.{Arm, Thumb};
ghost use Rattle.model.specs.declared.Step.TheVariants as kind;
ghost use Rattle.step.specs.Begun as def;
ghost use Rattle.step.specs.Begun.{Priceable, Takes, Reads, Writes};
ghost use Rattle.model.specs.Base.{further};
ghost use Rattle.model.specs.Sheet.{max_words};
ghost use Rattle.model.specs.Laws.Previous.{SoundPrevious};
ghost use Rattle.step.specs.Block.{Loadable, Clears};
ghost use Rattle.step.specs.Fetch.{fetch_of, code_fetch};
ghost use Rattle.model.specs.Memory.{lengths_sum};

use loads::{Bus, Media};
use machine::Machine;
use model::{
    AccessSize, Answer, Clock, Contents, IsaState, Lengths, PrefetchBuffer, Previous, Region, Step,
    Target, TimingInput, Version, VideoMemory,
};
use waits::waitcnt::WaitCnt;

pub mod machine;

// A step up to its idle cycles, and how many of them follow.
#[derive(Clone, Copy)]
struct Begun {
    clock: Clock,
    idle: u32,
    cycles: u32,
    hits: u8,
    value: u32,
    contents: Contents,
}

// A step that answers nothing.
fn unanswered(clock: Clock, contents: Contents, cycles: u32, idle: u32) -> Begun
    ensures { result ≡ def.joining (steps.timing clock idle cycles 0) (steps.change 0 contents []) }
{
    Begun {
        clock,
        idle,
        cycles,
        hits: 0,
        value: 0,
        contents,
    }
}

// The price of a data access at a lowered address; the waits are those of the register.
#[tactic(auto, using(crate::proofs::Laws::access_laws))]
fn data_price(
    waitcnt: u16,
    previous: Previous,
    waits: [[u8; 2]; 3],
    size: AccessSize,
    addr: u32,
    region: Region,
) -> u32
    requires { Priceable waitcnt previous waits addr region }
    ensures { result ≡ price (rom_waits_of waitcnt)
        (data_beats_in (sram_waits waitcnt) size (kind_at addr (kind_after previous addr)) region) }
{
    let register = WaitCnt { raw: waitcnt };
    timing::data_cycles(waits, register.sram_waits(), size, addr, region, previous)
}

// The clock after a data access at a lowered address, which is the previous one from now on. READ and WRITE price it and
// remember it in lines of their own: in a function for both that takes and gives the clock, the clock would stand in memory.
fn accessed(clock: Clock, size: AccessSize, addr: u32) -> Clock
    ensures { result ≡ steps.with_previous clock (previously addr (size_bytes_of size)) }
{
    let bytes = waits::size_bytes(size);
    Clock {
        previous: Previous { addr, size: bytes },
        ..clock
    }
}

// What the loads of a step see.
fn bus<'a>(contents: Contents, store: &'a [u8], media: &'a Media<'a>) -> Bus<'a>
    requires { lengths_sum media.now.lengths ≡ length store.now }
    ensures { result ≡ def.seen media.now contents store.now }
{
    Bus {
        pc: contents.cpu_pc,
        latch: contents.last_bios_opcode,
        bios: media.bios,
        rom: media.rom,
        store,
        lengths: media.lengths,
    }
}

// READ: `read8`, `read16`, `read32`. What loads is lent store and media and makes its bus: handed a bus that was made before,
// READ and WRITE took 1.08 of the Rust's time by turns, over the bar of 1.05, in place of 1.00.
#[tactic(auto, using(crate::proofs::Laws::access_laws), unfolding(model::specs::Memory::target, model::specs::Price::data_beats))]
fn read_step(
    machine: Machine,
    waits: [[u8; 2]; 3],
    size: AccessSize,
    addr: u32,
    store: &[u8],
    media: &Media<'_>,
) -> Begun
    requires { (waits ≡ rom_waits_of machine.clock.waitcnt) × (lengths_sum media.now.lengths ≡ length store.now) }
    ensures { Reads machine.clock machine.contents size addr media.now store.now result }
{
    let clock = machine.clock;
    let contents = machine.contents;
    let region = region::decode(addr);
    let target = parts::target_in(region, addr, media.lengths);
    let value = bus(contents, store, media).read(size, target, addr);
    let at = waits::aligned(size, addr);
    let price = data_price(clock.waitcnt, clock.previous, waits, size, at, region);
    let after = accessed(clock, size, at);
    Begun {
        clock: after,
        idle: 0,
        cycles: price,
        hits: 0,
        value,
        contents,
    }
}

// n halfwords go to the counter of a video memory, which stops at its greatest number.
fn count_in(contents: Contents, memory: VideoMemory, n: u64) -> Contents
    ensures { result ≡ steps.counted_in memory n contents }
{
    match memory {
        VideoMemory::PaletteRam => Contents {
            palette_write_count: contents.palette_write_count.saturating_add(n),
            ..contents
        },
        VideoMemory::VideoRam => Contents {
            vram_write_count: contents.vram_write_count.saturating_add(n),
            ..contents
        },
        VideoMemory::ObjectRam => Contents {
            oam_write_count: contents.oam_write_count.saturating_add(n),
            ..contents
        },
    }
}

// The counters after a store that counted n halfwords in the memory that it met.
fn count_store(contents: Contents, target: Target, n: u64) -> Contents
    ensures { result ≡ steps.counted_at target n contents }
{
    match target {
        Target::Video(memory, _, _) => count_in(contents, memory, n),
        Target::Unused
        | Target::SystemRom
        | Target::GamePakRom
        | Target::Plain(_, _)
        | Target::Sram(_, _) => contents,
    }
}

// WRITE: `write8`, `write16`, `write32`. The price comes first, so that the region need not be held through the store: the
// whole run is quicker by it. The store is a slice beside the lengths and no struct of both: what took one to write would promise
// that it still lends the same slice, a clause for the one that it saves.
#[tactic(auto, using(crate::proofs::Laws::access_laws), unfolding(model::specs::Memory::target, model::specs::Price::data_beats, model::specs::Store::puts, model::specs::Step::count_store))]
fn write_step(
    machine: Machine,
    waits: [[u8; 2]; 3],
    size: AccessSize,
    addr: u32,
    value: u32,
    store: &mut [u8],
    lengths: Lengths,
) -> Begun
    requires { (waits ≡ rom_waits_of machine.clock.waitcnt) × (lengths_sum lengths ≡ length store.old) }
    ensures { Writes machine.clock machine.contents size addr value lengths store.old result store.new }
{
    let region = region::decode(addr);
    let at = waits::aligned(size, addr);
    let clock = machine.clock;
    let price = data_price(clock.waitcnt, clock.previous, waits, size, at, region);
    let target = parts::target_in(region, addr, lengths);
    let stored = stores::write(size, target, addr, value, store, lengths);
    let counted = count_store(machine.contents, target, stored.halfwords);
    let after = accessed(clock, size, at);
    Begun {
        clock: after,
        idle: 0,
        cycles: price,
        hits: (stored.landed % 256) as u8,
        value: 0,
        contents: counted,
    }
}

// ---- blocks: word accesses at rising addresses

// The cycles of a block: each word is priced by itself, after the access before it. The waits are built here: an array that is
// handed to a function which stays one would stand in memory throughout the run.
#[tactic(auto, using(crate::proofs::Laws::block_laws), unfolding(model::specs::Price::data_beats))]
fn block_cycles(waitcnt: u16, previous: Previous, addr: u32, words: u32) -> u32
    requires { SoundPrevious previous × (words ≤ max_words) }
    ensures { result ≡ block_cycles_of waitcnt previous addr words }
{
    let waits = waits::rom_waits(WaitCnt { raw: waitcnt });
    let mut from = previous;
    let mut cycles: u32 = 0;
    let mut at = addr;
    for _ in 0..words {
        let low = waits::aligned(AccessSize::Word, at);
        let price = data_price(
            waitcnt,
            from,
            waits,
            AccessSize::Word,
            low,
            region::decode(at),
        );
        from = Previous { addr: low, size: 4 };
        cycles += price;
        at = at.wrapping_add(4);
    }
    cycles
}

// The address of a block's last word. The number of words is the step's, which is the definitions'; a block that held it within
// its limits would be another step.
fn last_of(addr: u32, words: u32) -> u32
    requires { (1 ≤ words) × (words ≤ max_words) }
    ensures { result ≡ further (4 * (words - 1)) addr }
{
    addr.wrapping_add(4 * (words - 1))
}

// BLOCK READ: `read32`, once a word. The last word is the answer, and the previous access from now on; a load changes nothing, so
// that the others need not be loaded.
#[tactic(auto, using(crate::proofs::Laws::block_laws))]
fn block_read_step(
    machine: Machine,
    addr: u32,
    words: u32,
    store: &[u8],
    media: &Media<'_>,
) -> Begun
    requires { (lengths_sum media.now.lengths ≡ length store.now) × Short (kind.BlockRead addr words) }
    ensures { result ≡ def.begun media.now (def.state_from machine.clock [] machine.contents store.now)
        (kind.BlockRead addr words) }
{
    let clock = machine.clock;
    let contents = machine.contents;
    let cycles = block_cycles(clock.waitcnt, clock.previous, addr, words);
    let last = last_of(addr, words);
    let target = parts::target_of(last, media.lengths);
    let value = bus(contents, store, media).read32(target, last);
    let low = waits::aligned(AccessSize::Word, last);
    let after = accessed(clock, AccessSize::Word, low);
    Begun {
        clock: after,
        idle: 0,
        cycles,
        hits: 0,
        value,
        contents,
    }
}

// What a block that stores leaves besides the store: the counters, and how many bytes landed.
#[derive(Clone, Copy)]
struct Zeroed {
    contents: Contents,
    landed: u64,
}

// Stores 0 in each word.
#[tactic(auto, using(crate::proofs::Laws::block_laws))]
fn clear_words(
    contents: Contents,
    addr: u32,
    words: u32,
    store: &mut [u8],
    lengths: Lengths,
) -> Zeroed
    requires { Loadable lengths words store.old }
    ensures { Clears (steps.block_stores lengths contents store.old addr words)
        store.old result store.new }
{
    let mut held = contents;
    let mut landed: u64 = 0;
    let mut at = addr;
    for _ in 0..words {
        let target = parts::target_of(at, lengths);
        let stored = stores::write_word(target, at, 0, store);
        let counted = count_store(held, target, stored.halfwords);
        held = counted;
        landed += stored.landed;
        at = at.wrapping_add(4);
    }
    Zeroed {
        contents: held,
        landed,
    }
}

// BLOCK WRITE: `write32` of 0, once a word.
#[tactic(auto, using(crate::proofs::Laws::block_laws))]
fn block_write_step(
    machine: Machine,
    addr: u32,
    words: u32,
    store: &mut [u8],
    lengths: Lengths,
) -> Begun
    requires { (lengths_sum lengths ≡ length store.old) × Short (kind.BlockWrite addr words) }
    ensures { def.Begins (def.media_from [] [] lengths) (def.state_from machine.clock [] machine.contents store.old)
        (kind.BlockWrite addr words) result store.new }
{
    let clock = machine.clock;
    let cycles = block_cycles(clock.waitcnt, clock.previous, addr, words);
    let zeroed = clear_words(machine.contents, addr, words, store, lengths);
    let low = waits::aligned(AccessSize::Word, last_of(addr, words));
    let after = accessed(clock, AccessSize::Word, low);
    let left = zeroed.contents;
    Begun {
        clock: after,
        idle: 0,
        cycles,
        hits: (zeroed.landed % 256) as u8,
        value: 0,
        contents: left,
    }
}

// WAITCNT: `write`, then `apply_waitcnt`.
#[tactic(auto, unfolding(model::specs::Step::set_waitcnt))]
fn set_waitcnt(clock: Clock, value: u16) -> Clock
    ensures { result ≡ steps.set_waitcnt clock value }
{
    let old = WaitCnt { raw: clock.waitcnt };
    let register = old.write(value);
    let p = clock.prefetch;
    let prefetch = prefetch::set_enabled(p, register.prefetch_enable());
    Clock {
        waitcnt: register.raw,
        prefetch,
        ..clock
    }
}

fn with_prefetch(clock: Clock, prefetch: PrefetchBuffer) -> Clock
    ensures { result ≡ steps.with_prefetch clock prefetch }
{
    Clock { prefetch, ..clock }
}

// The clock after a step that clears the previous data access.
fn cleared(clock: Clock) -> Clock
    ensures { result ≡ steps.cleared clock }
{
    Clock {
        previous: Previous::none(),
        ..clock
    }
}

// RESTART: `restart`.
#[tactic(auto, unfolding(model::specs::Waitcnt::rom_waits_of))]
fn restarted(machine: Machine, waits: [[u8; 2]; 3], addr: u32) -> Clock
    requires { waits ≡ rom_waits_of machine.clock.waitcnt }
    ensures { result ≡ (steps.timed machine.clock (kind.Restart addr)).clock }
{
    let clock = machine.clock;
    let p = clock.prefetch;
    cleared(with_prefetch(clock, prefetch::restart(p, addr, waits)))
}

// FETCH: `try_fetch_half`.
#[tactic(auto, unfolding(prefetch::specs::Found::found, model::specs::Step::half_at))]
fn fetch_step(machine: Machine, halves: &[u16; 8], addr: u32) -> Begun
    ensures { result ≡ def.memoryless machine.clock halves.now machine.contents (kind.Fetch addr) }
{
    let clock = machine.clock;
    let contents = machine.contents;
    let p = clock.prefetch;
    let fetched = prefetch::try_fetch_half(p, halves, addr);
    let prefetch = fetched.prefetch;
    let half = fetched.half;
    let after = cleared(with_prefetch(clock, prefetch));
    let Some(value) = half else {
        return unanswered(after, contents, 0, 0);
    };
    Begun {
        clock: after,
        idle: 0,
        cycles: 0,
        hits: 1,
        value: value as u32,
        contents,
    }
}

// The buffer after an opcode is fetched through it, and the halves that it had.
#[derive(Clone, Copy)]
struct CodeFetch {
    prefetch: PrefetchBuffer,
    hits: u8,
}

// A restart drains, so that a half that misses need not be fetched first. Not one function over the halves, of which ARM has two:
// there the first tells of the second.
#[tactic(auto, using(crate::proofs::Laws::fetch_laws))]
fn fetch_thumb(buffer: PrefetchBuffer, addr: u32, waits: [[u8; 2]; 3]) -> CodeFetch
    ensures { result ≡ fetch_of waits buffer addr Thumb }
{
    if prefetch::hits(buffer, addr) {
        let prefetch = prefetch::after_fetch(buffer, addr);
        return CodeFetch { prefetch, hits: 1 };
    }
    let prefetch = prefetch::restart(buffer, addr.wrapping_add(2), waits);
    CodeFetch { prefetch, hits: 0 }
}

// Where the first half misses, so does the second.
#[tactic(auto, using(crate::proofs::Laws::fetch_laws))]
fn fetch_arm(buffer: PrefetchBuffer, addr: u32, waits: [[u8; 2]; 3]) -> CodeFetch
    ensures { result ≡ fetch_of waits buffer addr Arm }
{
    let next = addr.wrapping_add(2);
    let after = addr.wrapping_add(4);
    if !prefetch::hits(buffer, addr) {
        let prefetch = prefetch::restart(buffer, after, waits);
        return CodeFetch { prefetch, hits: 0 };
    }
    let rest = prefetch::after_fetch(buffer, addr);
    if prefetch::hits(rest, next) {
        let prefetch = prefetch::after_fetch(rest, next);
        return CodeFetch { prefetch, hits: 2 };
    }
    let prefetch = prefetch::restart(rest, after, waits);
    CodeFetch { prefetch, hits: 1 }
}

// Code in a window goes through the buffer; code elsewhere leaves it alone.
fn fetch_code(buffer: PrefetchBuffer, isa: IsaState, addr: u32, waits: [[u8; 2]; 3]) -> CodeFetch
    ensures { result ≡ code_fetch waits buffer addr isa }
{
    let Some(_window) = waits::window_from_addr(addr) else {
        return CodeFetch {
            prefetch: buffer,
            hits: 0,
        };
    };
    match isa {
        IsaState::Arm => fetch_arm(buffer, addr, waits),
        IsaState::Thumb => fetch_thumb(buffer, addr, waits),
    }
}

// INSTRUCTION: the price with the board's switch and force flag, then the fetches; the idle cycles are left to the caller. Its
// parameters are the step's fields, one by one.
#[tactic(auto, using(crate::proofs::Laws::access_laws), unfolding(model::specs::Step::code_clock, model::specs::Step::code_fetched, model::specs::Step::code_hits))]
fn instruction_step(
    machine: Machine,
    waits: [[u8; 2]; 3],
    version: Version,
    isa: IsaState,
    addr: u32,
    opcode: u32,
    pc_changed: bool,
) -> Begun
    requires { waits ≡ rom_waits_of machine.clock.waitcnt }
    ensures { result ≡ def.memoryless machine.clock [] machine.contents (kind.Instruction version isa addr opcode pc_changed) }
{
    let clock = machine.clock;
    let contents = machine.contents;
    let p = clock.prefetch;
    let input = TimingInput {
        version,
        isa,
        code_addr: addr,
        opcode_raw: opcode,
        pc_changed,
        prefetch_enabled: p.enabled,
        force_fetch_n: clock.force_next_fetch_n,
    };
    let price = timing::price_insn(input, waits, p);
    let fetch = fetch_code(p, isa, addr, waits);
    let prefetch = fetch.prefetch;
    let none = Previous::none();
    let after = Clock {
        force_next_fetch_n: price.latch_disable_bug,
        prefetch,
        previous: none,
        ..clock
    };
    Begun {
        clock: after,
        idle: price.cart_idle,
        cycles: price.total,
        hits: fetch.hits,
        value: price.cart_idle,
        contents,
    }
}

// PC: `cpu_pc`.
fn with_pc(contents: Contents, pc: u32) -> Contents
    ensures { result ≡ steps.with_pc contents pc }
{
    Contents {
        cpu_pc: pc,
        ..contents
    }
}

// LATCH: `last_bios_opcode`.
fn with_latch(contents: Contents, latch: u32) -> Contents
    ensures { result ≡ steps.with_latch contents latch }
{
    Contents {
        last_bios_opcode: latch,
        ..contents
    }
}

// A step up to its idle cycles. A closure for each kind would be lent all that is lent here.
fn begin(
    machine: Machine,
    waits: [[u8; 2]; 3],
    halves: &[u16; 8],
    step: Step,
    store: &mut [u8],
    media: &Media<'_>,
) -> Begun
    requires { Takes machine.clock waits media.now.lengths store.old step }
    ensures { def.Begins media.now
        (def.state_from machine.clock halves.now machine.contents store.old)
        step result store.new }
{
    let clock = machine.clock;
    let contents = machine.contents;
    match step {
        Step::Read(size, addr) => read_step(machine, waits, size, addr, store, media),
        Step::Write(size, addr, value) => write_step(
            machine,
            waits,
            size,
            addr,
            value,
            store,
            media.lengths,
        ),
        Step::Waitcnt(value) => unanswered(cleared(set_waitcnt(clock, value)), contents, 0, 0),
        Step::Idle(cycles) => unanswered(clock, contents, cycles, cycles),
        Step::Fetch(addr) => fetch_step(machine, halves, addr),
        Step::Restart(addr) => unanswered(restarted(machine, waits, addr), contents, 0, 0),
        Step::Instruction(version, isa, addr, opcode, pc_changed) => instruction_step(
            machine, waits, version, isa, addr, opcode, pc_changed,
        ),
        Step::Pc(addr) => unanswered(clock, with_pc(contents, addr), 0, 0),
        Step::Latch(value) => unanswered(clock, with_latch(contents, value), 0, 0),
        Step::BlockRead(addr, words) => block_read_step(machine, addr, words, store, media),
        Step::BlockWrite(addr, words) => block_write_step(
            machine,
            addr,
            words,
            store,
            media.lengths,
        ),
    }
}

// What a step leaves besides the halfwords and the store, and its answer.
#[derive(Clone, Copy)]
pub struct Stepped {
    pub machine: Machine,
    pub answer: Answer,
}

// A step whole. Its idle cycles are ticked here, at one place for every kind: they come after all else that it does to the clock.
pub fn take_step(
    machine: Machine,
    waits: [[u8; 2]; 3],
    halves: &mut [u16; 8],
    step: Step,
    store: &mut [u8],
    media: &Media<'_>,
) -> Stepped
    requires { Takes machine.clock waits media.now.lengths store.old step }
    ensures { def.Steps media.now
        (def.state_from machine.clock halves.old machine.contents store.old)
        step result halves.new store.new }
{
    let begun = begin(machine, waits, halves, step, store, media);
    let before = begun.clock;
    let buffer = before.prefetch;
    let prefetch = prefetch::tick_idle(buffer, halves, begun.idle, waits, media.rom);
    let after = with_prefetch(before, prefetch);
    let answer = Answer {
        value: begun.value,
        cycles: begun.cycles,
        hits: begun.hits,
        count: (prefetch.count % 256) as u8,
        force: after.force_next_fetch_n,
    };
    Stepped {
        machine: Machine {
            clock: after,
            contents: begun.contents,
        },
        answer,
    }
}
