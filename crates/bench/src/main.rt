// bench: prices a sheet. It reads the sheet from standard input, runs it on a fresh board over zeroed memories without BIOS or
// ROM, and writes a line for each record (index, cycles, value, hits, prefetch count, force flag, and then the grounds of its
// price, a word a beat) and the total, or the refusal. A refusal, and input or output that fails, are told on standard error too.
// The exit status is 0 for figures, 1 for a refusal, 2 for input or output that fails. What is written is said by contracts over
// any writer, since what a terminal or a pipe gets no contract can say. Each line goes out in one write (line.rt).
#![tactic(auto)]

mod line;

ghost use Rattle.std.specs.Prelude.{◌≡◌, ◌≤◌, ◌*◌, length, take, IfOk, OnOk, IfSome};
ghost use Rattle.std.specs.Fmt.{with_newline};
ghost use Rattle.std.specs.Process.{exit_status};
ghost use Rattle.std.specs.Io.KnownBytes.{Appends};
ghost use Rattle.model.specs.BoardBytes.{answer_length};
ghost use Rattle.model.specs.Grounds.{ground_name, grounds_length};
ghost use Rattle.bench.specs.Text.{spaced, total_text, refusal_text, ending_by, status_of, bench_text, bench_ending, Wrote};
ghost use Rattle.bench.specs.Lines.{beat_text, beats_text, numbers_read, line_read, lines_read, report_read};

use bts::Report;
use grounds::names::{beat_ground, ground_name};
use line::Line;
use model::{
    ANSWER_LENGTH, GROUNDS_LENGTH, Ground, HEADER_LENGTH, Lengths, MAX_RECORDS, RECORD_LENGTH,
};
use std::fmt::Display;
use std::io;
use std::io::{Read, Write};
use std::process::ExitCode;

// How a run of the program ends: with figures, with a refusal, or with input that can't be read or output that can't be written.
#[derive(Clone, Copy)]
enum Ending {
    Figures,
    Refusal,
    Unread,
    Unwritten,
}

impl Ending {
    // What a script is told.
    fn status(self) -> ExitCode
        ensures { exit_status result ≡ status_of self }
    {
        ExitCode::from(match self {
            Ending::Figures => 0,
            Ending::Refusal => 1,
            Ending::Unread => 2,
            Ending::Unwritten => 2,
        })
    }
}

// A word for the person at the terminal; standard output has nothing but figures. Where nobody can be told, there is nobody to
// tell of that either.
fn say<E: Eprint>(rt: &E, words: &str) {
    let _ = eprintln!(rt; "bench: {words}");
}

// The word of a ground, behind a space.
fn print_name<W: Write>(out: &mut W, ground: Ground) -> io::Result<()>
    ensures { OnOk result (Appends (W.contents out.old) (W.contents out.new) (spaced (ground_name ground))) }
{
    let name = ground_name(ground);
    write!(out, " {name}")
}

fn print_ground<W: Write>(out: &mut W, beat: Option<Ground>) -> io::Result<()>
    ensures { OnOk result (Appends (W.contents out.old) (W.contents out.new) (beat_text beat)) }
{
    match beat {
        Some(ground) => print_name(out, ground),
        None => Ok(()),
    }
}

// The grounds of a record, a word a beat.
fn print_grounds<W: Write>(out: &mut W, grounds: &[u8]) -> io::Result<()>
    ensures { OnOk result (Appends (W.contents out.old) (W.contents out.new) (beats_text grounds.now)) }
{
    for byte in grounds {
        print_ground(out, beat_ground(*byte))?;
    }
    Ok(())
}

// The numbers of record k.
fn print_numbers<W: Write>(out: &mut W, k: usize, answer: &[u8]) -> io::Result<()>
    ensures { OnOk result (Appends (W.contents out.old) (W.contents out.new) (numbers_read k answer.now)) }
{
    let value = le::word_at(answer, 0);
    let cycles = le::word_at(answer, 4);
    let hits = le::byte_at(answer, 8);
    let count = le::byte_at(answer, 9);
    let force = le::byte_at(answer, 10);
    write!(out, "{k} {cycles} {value} {hits} {count} {force}")
}

// Its line, part by part.
fn print_parts<W: Write>(out: &mut W, k: usize, answer: &[u8], grounds: &[u8]) -> io::Result<()>
    ensures { OnOk result (Appends (W.contents out.old) (W.contents out.new) (line_read k answer.now grounds.now)) }
{
    print_numbers(out, k, answer)?;
    print_grounds(out, grounds)?;
    writeln!(out)
}

// Its line, in one write where a `Line` has room for it.
fn print_answer<W: Write>(out: &mut W, k: usize, answer: &[u8], grounds: &[u8]) -> io::Result<()>
    ensures { OnOk result (Appends (W.contents out.old) (W.contents out.new) (line_read k answer.now grounds.now)) }
{
    let mut line = Line::new();
    match print_parts(&mut line, k, answer, grounds) {
        Ok(()) => line.write_to(out),
        Err(_) => print_parts(out, k, answer, grounds),
    }
}

// The lines of the first n records.
fn print_answers<W: Write>(out: &mut W, answers: &[u8], grounds: &[u8], n: usize) -> io::Result<()>
    requires answered { answer_length * n ≤ length answers.now }
    requires explained { grounds_length * n ≤ length grounds.now }
    ensures { OnOk result (Appends (W.contents out.old) (W.contents out.new) (lines_read answers.now grounds.now n)) }
{
    let answers = answers.chunks_exact(ANSWER_LENGTH);
    let grounds = grounds.chunks_exact(GROUNDS_LENGTH);
    for (k, (answer, grounds)) in answers.zip(grounds).take(n).enumerate() {
        print_answer(out, k, answer, grounds)?;
    }
    Ok(())
}

// A line that is no record's, likewise.
fn print_line<W: Write, D: Display + Drop>(out: &mut W, text: D) -> io::Result<()>
    ensures { OnOk result (IfSome (with_newline (D.output text)) (Appends (W.contents out.old) (W.contents out.new))) }
{
    let mut line = Line::new();
    match writeln!(line, "{text}") {
        Ok(()) => line.write_to(out),
        Err(_) => writeln!(out, "{text}"),
    }
}

fn print_total<W: Write>(out: &mut W, total: u64) -> io::Result<()>
    ensures { OnOk result (Appends (W.contents out.old) (W.contents out.new) (total_text total)) }
{
    print_line(out, format_args!("total {total}"))
}

fn print_refusal<W: Write>(out: &mut W, refusal: u32, index: u32) -> io::Result<()>
    ensures { OnOk result (Appends (W.contents out.old) (W.contents out.new) (refusal_text refusal index)) }
{
    print_line(out, format_args!("refused {refusal} at {index}"))
}

// Writes what a run gives back, the figures or the refusal.
fn print_report<W: Write>(
    out: &mut W,
    report: Report,
    answers: &[u8],
    grounds: &[u8],
) -> io::Result<Ending>
    requires answered { answer_length * report.index ≤ length answers.now }
    requires explained { grounds_length * report.index ≤ length grounds.now }
    ensures text { OnOk result (Appends (W.contents out.old) (W.contents out.new) (report_read report answers.now grounds.now)) }
    ensures ending { IfOk result (λ ending. ending ≡ ending_by report.number) }
{
    // the report is C's: 0 is no refusal
    if report.number != 0 {
        print_refusal(out, report.number, report.index)?;
        return Ok(Ending::Refusal);
    }
    print_answers(out, answers, grounds, report.index as usize)?;
    print_total(out, report.total)?;
    Ok(Ending::Figures)
}

// The lengths of the lent memories (docs/RULES.md, "The program bench"), 61,444 bytes together.
const MEMORIES: Lengths = Lengths {
    ewram: 16384,
    iwram: 16384,
    io: 2052,
    palette: 1024,
    vram: 16384,
    oam: 1024,
    sram: 8192,
};

// Runs a sheet over a fresh board and zeroed memories, and writes the figures, or the refusal. Without a heap the buffers are as
// long as the longest sheet needs.
fn run_sheet<E: Eprint, W: Write>(rt: &E, out: &mut W, sheet: &[u8]) -> io::Result<Ending>
    ensures text { OnOk result (Appends (W.contents out.old) (W.contents out.new) (bench_text sheet.now)) }
    ensures ending { IfOk result (λ ending. ending ≡ bench_ending sheet.now) }
{
    let mut board = board::fresh();
    let mut store = [0u8; 61444];
    let mut answers = [0u8; ANSWER_LENGTH * MAX_RECORDS];
    let mut grounds = [0u8; GROUNDS_LENGTH * MAX_RECORDS];
    let report = bts::bts_run_grounds(
        sheet,
        &mut board,
        &mut store,
        b"",
        b"",
        &mut answers,
        &mut grounds,
        MEMORIES.ewram,
        MEMORIES.iwram,
        MEMORIES.io,
        MEMORIES.palette,
        MEMORIES.vram,
        MEMORIES.oam,
        MEMORIES.sram,
    );
    if report.number != 0 {
        say(rt, "the sheet is refused");
    }
    print_report(out, report, &answers, &grounds)
}

// Reads until the buffer is full or the input has ended, and answers how many bytes it put there. `read_exact` tells no count
// where the input ends early, and `read_to_end` needs a heap, which this program has none of.
fn read_full<R: Read>(input: &mut R, buffer: &mut [u8]) -> io::Result<usize>
    ensures within { IfOk result (λ n. n ≤ length buffer.new) }
    ensures bytes { IfOk result (λ n. IfSome (R.remaining input.old) (λ bytes.
        take n buffer.new ≡ take (length buffer.new) bytes)) }
{
    let mut done: usize = 0;
    while done < buffer.len() {
        match input.read(&mut buffer[done..])? {
            0 => break,
            n => done += n,
        }
    }
    Ok(done)
}

// The program, over what it reads and what it writes. One byte more than the longest sheet is enough to see that the input is
// longer than any. Input that can't be read is no sheet, so no line is written of it.
fn price<E: Eprint, R: Read, W: Write>(rt: &E, input: &mut R, out: &mut W) -> Ending
    ensures { IfSome (R.remaining input.old) (λ sheet. Wrote sheet result (W.contents out.old) (W.contents out.new)) }
{
    let mut bytes = [0u8; HEADER_LENGTH + RECORD_LENGTH * MAX_RECORDS + 1];
    let Ok(n) = read_full(input, &mut bytes) else {
        say(rt, "can't read standard input");
        return Ending::Unread;
    };
    match run_sheet(rt, out, &bytes[..n]) {
        Ok(ending) => ending,
        Err(_) => {
            say(rt, "can't write standard output");
            Ending::Unwritten
        }
    }
}

fn main(rt: HostRuntime) -> ExitCode {
    price(&rt, &mut rt.reader(), &mut io::writer(&rt)).status()
}
