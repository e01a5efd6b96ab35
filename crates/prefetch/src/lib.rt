// The Game Pak prefetch buffer: it fetches opcode halfwords ahead of the CPU while the cartridge bus is idle. Port of
// src/bus/prefetch.rs. The buffer goes in by value and comes back; its eight halfwords are lent beside it.
#![tactic(auto)]

ghost use Rattle.std.specs.Prelude.{◌≡◌, ◌-◌, ◌<◌, ◌≤◌};
ghost use Rattle.model.specs.Base as base;
ghost use Rattle.model.specs.Load as load;
ghost use Rattle.model.specs.Mirror as mirrored;
ghost use Rattle.model.specs.Prefetch as def;
ghost use Rattle.model.specs.Laws.Bounds.{SmallWaits};
ghost use Rattle.model.specs.Laws.Sound.{Sound};
ghost use Rattle.prefetch.specs.InFlight.{InFlight};
ghost use Rattle.prefetch.specs.Found.{found, fetched_half};
ghost use Rattle.prefetch.specs.Ticked.{Ticked};

use le::byte_at;
use model::{AccessKind, PrefetchBuffer};
use region::ROM_WINDOW_SIZE;
use region::mirror::mirrored;

// Halfwords that the buffer can hold.
pub const PREFETCH_CAPACITY: usize = 8;

// What a fetch gives: the buffer after it, and the halfword, if the buffer had it.
#[derive(Clone, Copy)]
pub struct Fetched {
    pub prefetch: PrefetchBuffer,
    pub half: Option<u16>,
}

// ---- the switch, draining and restarting

// Drop all halfwords and the beat in flight.
pub fn drain(buffer: PrefetchBuffer) -> PrefetchBuffer
    ensures { result ≡ def.drained buffer }
{
    PrefetchBuffer {
        enabled: buffer.enabled,
        ..PrefetchBuffer::new()
    }
}

// WAITCNT bit 14: to switch off drains.
#[tactic(auto, unfolding(model::specs::Prefetch::set_enabled))]
pub fn set_enabled(buffer: PrefetchBuffer, enable: bool) -> PrefetchBuffer
    ensures { result ≡ def.set_enabled enable buffer }
{
    if buffer.enabled == enable {
        return buffer;
    }
    let switched = PrefetchBuffer {
        enabled: enable,
        ..buffer
    };
    if enable {
        return switched;
    }
    drain(switched)
}

// Start to fill from the halfword at `addr`.
#[tactic(auto, unfolding(model::specs::Prefetch::restart))]
pub fn restart(buffer: PrefetchBuffer, addr: u32, waits: [[u8; 2]; 3]) -> PrefetchBuffer
    ensures { result ≡ def.restart waits buffer addr }
{
    let drained = drain(buffer);
    if !buffer.enabled {
        return drained;
    }
    let Some(window) = waits::window_from_addr(addr) else {
        return drained;
    };
    PrefetchBuffer {
        next_addr: addr / 2 * 2,
        first_beat: true,
        filling: true,
        wait_left: waits::rom_half_cycles(waits, window, AccessKind::Nonseq),
        ..drained
    }
}

// ---- beats: a beat fetches one halfword from ROM

// A byte of the image; 0 past its end.
fn rom_byte(rom: &[u8], addr: u32) -> u8
    ensures { result ≡ base.byte_at rom.now (mirrored.rom_offset addr) }
{
    byte_at(rom, mirrored::<ROM_WINDOW_SIZE>(addr))
}

// `read_half`: the halfword load of the bus inside the ROM windows.
#[tactic(auto, unfolding(model::specs::Load::rom_halfword))]
fn rom_half(rom: &[u8], addr: u32) -> u16
    ensures { result ≡ load.rom_halfword rom.now addr }
{
    let low = rom_byte(rom, addr);
    let high = rom_byte(rom, addr.wrapping_add(1));
    u16::from_le_bytes([low, high])
}

// The next beat; the filling stops where the next address has no window.
#[tactic(auto, unfolding(model::specs::Prefetch::start_beat))]
fn start_beat(buffer: PrefetchBuffer, waits: [[u8; 2]; 3]) -> PrefetchBuffer
    ensures { result ≡ def.start_beat waits buffer }
{
    let Some(window) = waits::window_from_addr(buffer.next_addr) else {
        return PrefetchBuffer {
            filling: false,
            ..buffer
        };
    };
    let kind = waits::nonseq_if(buffer.first_beat);
    PrefetchBuffer {
        first_beat: false,
        wait_left: waits::rom_half_cycles_at(waits, buffer.next_addr, window, kind),
        filling: true,
        ..buffer
    }
}

// With no beat in flight, room in the buffer and a window to fetch from, a beat starts.
#[tactic(auto, unfolding(model::specs::Prefetch::ready))]
fn ready(buffer: PrefetchBuffer, waits: [[u8; 2]; 3]) -> PrefetchBuffer
    ensures { result ≡ def.ready waits buffer }
{
    if !buffer.filling & (buffer.count < PREFETCH_CAPACITY) & waits::in_window(buffer.next_addr) {
        return start_beat(buffer, waits);
    }
    buffer
}

// The halfword in flight is in the buffer.
#[tactic(auto, unfolding(model::specs::Prefetch::arrived))]
fn arrive(buffer: PrefetchBuffer) -> PrefetchBuffer
    requires { buffer.count < 8 }
    ensures { result ≡ def.arrived buffer }
{
    let next_addr = buffer.next_addr.wrapping_add(2);
    let head_addr = if buffer.count == 0 {
        buffer.next_addr
    } else {
        buffer.head_addr
    };
    PrefetchBuffer {
        count: buffer.count + 1,
        next_addr,
        wait_left: 0,
        head_addr,
        filling: false,
        ..buffer
    }
}

// The beat in flight ends, and the next one starts until the buffer is full.
#[tactic(auto, unfolding(model::specs::Prefetch::ended, model::specs::Prefetch::arrived))]
fn end_beat(buffer: PrefetchBuffer, waits: [[u8; 2]; 3]) -> PrefetchBuffer
    requires { buffer.count < 8 }
    ensures { result ≡ def.ended waits buffer }
{
    let arrived = arrive(buffer);
    if arrived.count < PREFETCH_CAPACITY {
        return start_beat(arrived, waits);
    }
    arrived
}

// ---- idle cycles

// Fewer cycles than the beat in flight has left only shorten it.
fn shorten(buffer: PrefetchBuffer, cycles: u32) -> PrefetchBuffer
    requires { cycles ≤ buffer.wait_left }
    ensures { result ≡ def.with_wait (buffer.wait_left - cycles) buffer }
{
    PrefetchBuffer {
        wait_left: buffer.wait_left - cycles,
        ..buffer
    }
}

// Cycles of the beat in flight, at most as many as it has left. The last one brings the halfword.
#[tactic(auto, using(crate::proofs::Idle::beat_laws))]
fn run_beat(
    buffer: PrefetchBuffer,
    halves: &mut [u16; 8],
    step: u32,
    waits: [[u8; 2]; 3],
    rom: &[u8],
) -> PrefetchBuffer
    requires { InFlight buffer step }
    ensures { Ticked waits rom.now step buffer halves.old result halves.new }
{
    if step < buffer.wait_left {
        return shorten(buffer, step);
    }
    let slot = (buffer.head + buffer.count) % PREFETCH_CAPACITY;
    halves[slot] = rom_half(rom, buffer.next_addr);
    end_beat(buffer, waits)
}

// Idle cycles of the cartridge bus, whole beats at a time. The Rust's loop also asks whether the buffer is full or a beat has no
// cycle left: on a sound buffer neither holds while one is in flight, nor is a next address with a window ever 0.
#[tactic(auto, using(crate::proofs::Idle::idle_laws))]
pub fn tick_idle(
    buffer: PrefetchBuffer,
    halves: &mut [u16; 8],
    cycles: u32,
    waits: [[u8; 2]; 3],
    rom: &[u8],
) -> PrefetchBuffer
    requires { Sound buffer × SmallWaits waits }
    ensures { Ticked waits rom.now cycles buffer halves.old result halves.new }
{
    if cycles == 0 {
        return buffer;
    }
    if !buffer.enabled {
        return buffer;
    }
    let mut current = ready(buffer, waits);
    let mut left = cycles;
    // whole beats at a time, until the cycles are used up or the filling ends: there is no range to go through
    while left > 0 && current.filling {
        let step = left.min(current.wait_left);
        current = run_beat(current, halves, step, waits, rom);
        left -= step;
    }
    current
}

// ---- opcode fetches

// The switch is on and a halfword stands.
#[tactic(auto, unfolding(model::specs::Prefetch::occupied))]
fn occupied(buffer: PrefetchBuffer) -> bool
    ensures { result ≡ def.occupied buffer }
{
    buffer.enabled & (buffer.count != 0)
}

// Whether a fetch would find the halfword at its address (pricing).
#[tactic(auto, unfolding(model::specs::Prefetch::hit))]
pub fn hits(buffer: PrefetchBuffer, addr: u32) -> bool
    ensures { result ≡ def.hit buffer addr }
{
    occupied(buffer) & (addr / 2 * 2 == buffer.head_addr)
}

// The halfword at the head, if it is that of the address.
#[tactic(auto, unfolding(crate::specs::Found::found))]
pub fn peek_half(buffer: PrefetchBuffer, halves: &[u16; 8], addr: u32) -> Option<u16>
    ensures { result ≡ found halves.now buffer addr }
{
    if !hits(buffer, addr) {
        return None;
    }
    Some(halves.get(buffer.head).copied().unwrap_or(0))
}

// The head's halfword is taken.
#[tactic(auto, unfolding(model::specs::Prefetch::taken))]
fn take(buffer: PrefetchBuffer) -> PrefetchBuffer
    requires { 1 ≤ buffer.count }
    ensures { result ≡ def.taken buffer }
{
    let next = buffer.head_addr.wrapping_add(2);
    let head_addr = if buffer.count == 1 { 0 } else { next };
    PrefetchBuffer {
        head: (buffer.head % PREFETCH_CAPACITY + 1) % PREFETCH_CAPACITY,
        count: buffer.count - 1,
        head_addr,
        ..buffer
    }
}

// The buffer after a fetch: its head is taken on a hit. A miss drains it, but not when it is off or empty.
#[tactic(auto, unfolding(model::specs::Prefetch::fetched, model::specs::Prefetch::hit, model::specs::Prefetch::occupied))]
pub fn after_fetch(buffer: PrefetchBuffer, addr: u32) -> PrefetchBuffer
    ensures { result ≡ def.fetched buffer addr }
{
    if hits(buffer, addr) {
        return take(buffer);
    }
    let drained = drain(buffer);
    if occupied(buffer) { drained } else { buffer }
}

// An opcode fetch from the buffer.
#[tactic(auto, unfolding(model::specs::Prefetch::fetched, model::specs::Prefetch::hit, model::specs::Prefetch::occupied, model::specs::Prefetch::taken, crate::specs::Found::found))]
pub fn try_fetch_half(buffer: PrefetchBuffer, halves: &[u16; 8], addr: u32) -> Fetched
    ensures { result ≡ fetched_half halves.now buffer addr }
{
    let half = peek_half(buffer, halves, addr);
    let prefetch = after_fetch(buffer, addr);
    Fetched { prefetch, half }
}

// A hit has no waits.
pub fn hit_cycles() -> u32
    ensures { result ≡ 1 }
{
    1
}
