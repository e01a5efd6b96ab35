// Replays recorded runs: reads a sample of cases with the Rust's answers from standard input, does each by `bts_run`,
// `bts_run_tariff`, `bts_run_grounds` or `bts_preview`, tells each field that differs, as `case 17: board`, and at the end how
// many cases agree. A case's number is its place in the sample, from 0 on: case 17 is `sample:17` of tests/against-rust.
//
// The sample, the file `stdin`, was recorded by `tests/against-rust/run --record crates/replay/stdin` from the Rust at commit
// 46607fe0ef, built unchanged but for a way to its prefetch's private fields. tests/against-rust/README.md has the format. Its
// 1,833 cases are the worked figures' lists; random lists over memories of 0, 1, odd and other lengths; sound boards that no
// list of steps leads to, among them counters near 2^64 - 1; fills across each window edge, and one stopped after each number
// of cycles; each refusal alone and each two of them; each way to break a board, boards of other lengths, and random damage;
// each kind of record with each field wrong; each two faults of records, in either order, and faults in the last of 4,096; lists
// of 0, 1, 4,096 and 4,097 records; every edge over full memories, those where addresses wrap included; stores across each
// memory's end, at lengths of each residue modulo 4; each memory one byte too long; rows of data accesses in each window, around
// blocks and edges, on boards with and without a previous access, with each other kind of step between; 103 runs under a
// tariff, from one rounding edge to the next, with each refusal alone and each two of them; 120 previews, of each kind of
// step, from boards of all sorts, with each of their refusals alone and each two of them; 252 runs with grounds, each word in
// its order of precedence, code across each edge with the force flag and the buffer, with each of their refusals alone and each
// two of them; and, of version 2, 202 runs, 48 under a tariff, 173 with grounds and 175 previews: blocks of 1 to 16 words over
// every edge, beside each other kind of step, the opcodes around POP, versions that there are and that there aren't, and each
// refusal alone and each two of them.
#![tactic(auto)]

mod buffers;
mod compare;
mod head;
mod pattern;
mod sample;
mod space;

ghost use Rattle.std.specs.Prelude.{◌≤◌};

use buffers::Buffers;
use compare::Case;
use head::{
    Head, MOST_ANSWERS, MOST_BIOS, MOST_BOARD, MOST_ROM, MOST_SECOND, MOST_SHEET, MOST_STORE,
};
use sample::{BadSample, read_array, read_u32};
use space::{Length, Space};
use std::io;
use std::io::Read;

// Does a case, and answers whether it agrees.
fn replay_case<P: Print, R: Read>(
    rt: &P,
    input: &mut R,
    buffers: &mut Buffers,
    number: u32,
) -> Result<bool, BadSample> {
    let bytes: [u8; 68] = read_array(input)?;
    let head = Head::parse(&bytes)?;
    buffers.read(input, head)?;
    let bill = buffers.run(head);
    let case = Case { rt, number };
    case.compare(input, bill, buffers, head.asked.seed)
}

// Replays cases until all are done or one is cut off or too long, and answers how many agree.
fn replay_all<P: Print, R: Read>(rt: &P, input: &mut R, buffers: &mut Buffers, count: u32) -> u32
    ensures { result ≤ count }
{
    let mut agree: u32 = 0;
    for case in 0..count {
        match replay_case(rt, input, buffers, case) {
            Ok(same) => agree += u32::from(same),
            Err(bad) => {
                let _ = println!(rt; "case {case}: {bad}");
                return agree;
            }
        }
    }
    agree
}

// The buffers stand here, for all the cases. As a function's result they would be copied, and take the stack twice.
fn replay<P: Print, R: Read>(rt: &P, input: &mut R, count: u32) -> io::Result<()> {
    let mut buffers = Buffers {
        sheet: Space {
            bytes: [0; MOST_SHEET],
            len: Length { n: 0 },
        },
        board: Space {
            bytes: [0; MOST_BOARD],
            len: Length { n: 0 },
        },
        store: Space {
            bytes: [0; MOST_STORE],
            len: Length { n: 0 },
        },
        bios: Space {
            bytes: [0; MOST_BIOS],
            len: Length { n: 0 },
        },
        rom: Space {
            bytes: [0; MOST_ROM],
            len: Length { n: 0 },
        },
        answers: Space {
            bytes: [0; MOST_ANSWERS],
            len: Length { n: 0 },
        },
        second: Space {
            bytes: [0; MOST_SECOND],
            len: Length { n: 0 },
        },
        wanted: Space {
            bytes: [0; MOST_SECOND],
            len: Length { n: 0 },
        },
    };
    let agree = replay_all(rt, input, &mut buffers, count);
    println!(rt; "{agree} of {count} agree")
}

fn main(rt: HostRuntime) -> io::Result<()> {
    let mut input = rt.reader();
    match read_u32(&mut input) {
        Ok(count) => replay(&rt, &mut input, count),
        Err(bad) => println!(rt; "{bad}"),
    }
}
