// figures: runs the worked figures that are not theorems, those of docs/RULES.md, "Figures", and those in the comments of the
// Rust, and writes what the run answers. The file `stdout` beside src/ has what they must be.
#![tactic(auto)]

mod record;
mod worked;

use model::{ANSWER_LENGTH, BOARD_LENGTH, HEADER_LENGTH, Lengths, RECORD_LENGTH};
use record::{Listed, Record, sheet_of};
use std::io;
use worked::Figure;

// The memories' physical sizes, but for an SRAM of 32,768 bytes.
const MEMORIES: Lengths = Lengths {
    ewram: 262144,
    iwram: 32768,
    io: 2052,
    palette: 1024,
    vram: 98304,
    oam: 1024,
    sram: 32768,
};

// All of them together.
const STORE_LENGTH: usize = 430084;

// A cartridge whose first opcodes stand at 0x100.
fn cartridge() -> [u8; 512] {
    let mut rom = [0u8; 512];
    rom[0x100..0x104].copy_from_slice(&[0x34, 0x12, 0x78, 0x56]);
    rom
}

// Runs a sheet on a fresh board over zeroed memories, writes its answers, and gives the report's number, which is C's.
fn run(sheet: &[u8], answers: &mut [u8]) -> u32 {
    let mut board = [0u8; BOARD_LENGTH];
    let mut store = [0u8; STORE_LENGTH];
    let report = bts::bts_run(
        sheet,
        &mut board,
        &mut store,
        b"",
        &cartridge(),
        answers,
        MEMORIES.ewram,
        MEMORIES.iwram,
        MEMORIES.io,
        MEMORIES.palette,
        MEMORIES.vram,
        MEMORIES.oam,
        MEMORIES.sram,
    );
    report.number
}

// Cycles and value of a record.
fn print_answer<P: Print>(rt: &P, answer: &[u8]) -> io::Result<()> {
    print!(rt; " {} {}", le::word_at(answer, 4), le::word_at(answer, 0))
}

// Its hits and the prefetch count.
fn print_buffer<P: Print>(rt: &P, answer: &[u8]) -> io::Result<()> {
    print!(rt; " {} {}", le::byte_at(answer, 8), le::byte_at(answer, 9))
}

// Cycles and value of each record, and the run's number.
fn show<P: Print>(rt: &P, figure: &Figure<3>) -> io::Result<()> {
    let sheet: [u8; HEADER_LENGTH + RECORD_LENGTH * 3] = sheet_of(Listed {
        records: &figure.records,
    });
    let mut answers = [0u8; ANSWER_LENGTH * 3];
    let number = run(&sheet, &mut answers);
    print!(rt; "{}:", figure.title)?;
    for answer in answers.chunks_exact(ANSWER_LENGTH) {
        print_answer(rt, answer)?;
    }
    println!(rt; " {number}")
}

// Two records behind WAITCNT 0x4000 and RESTART 0x08000100: cycles, value, hits and prefetch count of each, and the run's number.
fn show_buffer<P: Print>(rt: &P, figure: &Figure<2>) -> io::Result<()> {
    let [first, second] = figure.records;
    let records = [
        Record::Waitcnt(0x4000),
        Record::Restart(0x0800_0100),
        first,
        second,
    ];
    let sheet: [u8; HEADER_LENGTH + RECORD_LENGTH * 4] = sheet_of(Listed { records: &records });
    let mut answers = [0u8; ANSWER_LENGTH * 4];
    let number = run(&sheet, &mut answers);
    print!(rt; "{}:", figure.title)?;
    for answer in answers.chunks_exact(ANSWER_LENGTH).skip(2) {
        print_answer(rt, answer)?;
        print_buffer(rt, answer)?;
    }
    println!(rt; " {number}")
}

fn show_all<P: Print>(rt: &P, figures: &[Figure<3>]) -> io::Result<()> {
    for figure in figures {
        show(rt, figure)?;
    }
    Ok(())
}

fn main(rt: HostRuntime) -> io::Result<()> {
    show_all(&rt, &worked::DATA_PRICES)?;
    show_all(&rt, &worked::COMMON_SETTING)?;
    show_all(&rt, &worked::FIRST_FIELDS)?;
    show_all(&rt, &worked::SECOND_FIELDS)?;
    show_all(&rt, &worked::MIRRORS)?;
    show_all(&rt, &worked::LATCH_AND_VIDEO)?;
    show_all(&rt, &worked::VIDEO_MODES)?;
    show_all(&rt, &worked::PLACES)?;
    show_all(&rt, &worked::CARTRIDGE_PLACES)?;
    show_all(&rt, &worked::INTERNAL_CYCLES)?;
    show_all(&rt, &worked::FETCH_PRICES)?;
    for figure in &worked::BUFFER {
        show_buffer(&rt, figure)?;
    }
    Ok(())
}
