// A board as bytes: reading them, writing them, and whether they are sound. From docs/RULES.md, "The board" and "A sound board".
#![tactic(auto)]

ghost use Rattle.std.specs.Prelude.{◌≡◌, map, ◌≤◌, length};
ghost use Rattle.model.specs.Base.{encoded, field};
ghost use Rattle.model.specs.BoardBytes as def;

use le::{put16, put32, put64, read16, read32, read64};
use model::{BOARD_LENGTH, Board, Clock, Contents, PrefetchBuffer, Previous};
use waits::in_window;
use waits::waitcnt::WaitCnt;

// ---- reading

fn load_prefetch(board: &[u8; BOARD_LENGTH], enabled: bool) -> PrefetchBuffer
    ensures { result ≡ def.prefetch_of board.now enabled }
{
    PrefetchBuffer {
        head: board[3] as usize,
        count: board[4] as usize,
        next_addr: read32(board, 12),
        wait_left: read32(board, 8),
        head_addr: read32(board, 16),
        enabled,
        filling: board[5] == 1,
        first_beat: board[6] == 1,
    }
}

#[tactic(auto, unfolding(model::specs::BoardBytes::clock_of))]
pub fn load_clock(board: &[u8; BOARD_LENGTH]) -> Clock
    ensures { result ≡ def.clock_of board.now }
{
    let waitcnt = read16(board, 0);
    let register = WaitCnt { raw: waitcnt };
    let prefetch = load_prefetch(board, register.prefetch_enable());
    Clock {
        waitcnt,
        force_next_fetch_n: board[2] == 1,
        prefetch,
        previous: Previous {
            addr: read32(board, 68),
            size: board[72] as u32,
        },
    }
}

// The eight halfwords of the prefetch buffer.
pub fn load_halves(board: &[u8; BOARD_LENGTH]) -> [u16; 8]
    ensures { result ≡ def.halves_from board.now 20 8 }
{
    std::array::from_fn(|i| read16(board, 20 + 2 * i))
}

#[tactic(auto, unfolding(model::specs::BoardBytes::contents_of))]
pub fn load_contents(board: &[u8; BOARD_LENGTH]) -> Contents
    ensures { result ≡ def.contents_of board.now }
{
    Contents {
        cpu_pc: read32(board, 36),
        last_bios_opcode: read32(board, 40),
        vram_write_count: read64(board, 44),
        oam_write_count: read64(board, 52),
        palette_write_count: read64(board, 60),
    }
}

// ---- soundness

// Filling is 1 exactly when wait left is at least 1; then there is room, and next address lies in a ROM window.
#[tactic(auto, unfolding(model::specs::BoardBytes::sound_beat))]
fn sound_beat(p: PrefetchBuffer) -> bool
    ensures { result ≡ def.sound_beat p }
{
    if !p.filling {
        return !(1 <= p.wait_left);
    }
    (1 <= p.wait_left) & ((p.count <= 7) & in_window(p.next_addr))
}

// The halfwords that stand run from head address to next address.
#[tactic(auto, unfolding(model::specs::BoardBytes::sound_row))]
fn sound_row(p: PrefetchBuffer) -> bool
    requires { p.count ≤ 8 }
    ensures { result ≡ def.sound_row p }
{
    if p.count == 0 {
        return p.head_addr == 0;
    }
    if p.head_addr as u64 + 2 * p.count as u64 != p.next_addr as u64 {
        return false;
    }
    in_window(p.head_addr) & in_window(p.next_addr - 2)
}

// What prefetch off asks: nothing stands in the buffer, and no beat is in flight.
#[tactic(auto, unfolding(model::specs::BoardBytes::is_zero))]
fn is_zero(p: PrefetchBuffer) -> bool
    ensures { result ≡ def.is_zero p }
{
    let emptied = PrefetchBuffer {
        enabled: p.enabled,
        ..PrefetchBuffer::new()
    };
    p == emptied
}

// The count comes first: the sum of the row must not wrap.
#[tactic(auto, unfolding(model::specs::BoardBytes::sound_prefetch))]
fn sound_prefetch(p: PrefetchBuffer) -> bool
    ensures { result ≡ def.sound_prefetch p }
{
    if 8 < p.count {
        return false;
    }
    (p.head <= 7)
        & (p.wait_left <= 9)
        & (p.next_addr % 2 == 0)
        & sound_beat(p)
        & sound_row(p)
        & (p.enabled | is_zero(p))
}

// The previous data access: with size 0 its address is 0, otherwise a multiple of its size, which is 1, 2 or 4.
#[tactic(auto, unfolding(model::specs::BoardBytes::sound_previous))]
fn sound_previous(p: Previous) -> bool
    ensures { result ≡ def.sound_previous p }
{
    if p.size == 0 {
        return p.addr == 0;
    }
    ((p.size == 1) | (p.size == 2) | (p.size == 4)) & (p.addr % p.size == 0)
}

// Zero bytes are zero, flags are 0 or 1, and WAITCNT bit 13 is clear.
#[tactic(auto, unfolding(model::specs::BoardBytes::sound_bytes))]
fn sound_bytes(board: &[u8; BOARD_LENGTH]) -> bool
    ensures { result ≡ def.sound_bytes board.now }
{
    (board[7] == 0)
        & ((board[73] == 0) & (read16(board, 74) == 0) & (read32(board, 76) == 0))
        & (board[2] <= 1)
        & (board[5] <= 1)
        & (board[6] <= 1)
        & (read16(board, 0) / 0x2000 % 2 == 0)
}

// Whether bytes are a sound board, of whatever length they are.
#[tactic(auto, unfolding(model::specs::BoardBytes::sound))]
pub fn is_sound(board: &[u8]) -> bool
    ensures { result ≡ def.sound board.now }
{
    let Some(board) = board.as_array() else {
        return false;
    };
    let clock = load_clock(board);
    sound_bytes(board) & sound_prefetch(clock.prefetch) & sound_previous(clock.previous)
}

// ---- writing

// Bytes 0 to 7.
fn put_flags(out: &mut [u8], clock: Clock)
    requires { length out.old ≡ 8 }
    ensures { out.new ≡ encoded (def.flag_fields clock) }
{
    put16(&mut out[0..2], clock.waitcnt);
    out[2] = clock.force_next_fetch_n as u8;
    out[3] = (clock.prefetch.head % 256) as u8;
    out[4] = (clock.prefetch.count % 256) as u8;
    out[5] = clock.prefetch.filling as u8;
    out[6] = clock.prefetch.first_beat as u8;
    out[7] = 0;
}

// Bytes 0 to 19: the flags, and three words. The parts of a board are slices: made arrays of, each would be one at its one call.
fn put_clock(out: &mut [u8], clock: Clock)
    requires { length out.old ≡ 20 }
    ensures { out.new ≡ encoded (def.clock_fields clock) }
{
    let p = clock.prefetch;
    put_flags(&mut out[0..8], clock);
    put32(&mut out[8..12], p.wait_left);
    put32(&mut out[12..16], p.next_addr);
    put32(&mut out[16..20], p.head_addr);
}

// Bytes 20 to 35.
fn put_halves(out: &mut [u8], halves: [u16; 8])
    requires { length out.old ≡ 16 }
    ensures { out.new ≡ encoded (map (field 2) halves) }
{
    // by number: a halfword and the place of its two bytes
    for i in 0..8 {
        let at = 2 * i;
        put16(&mut out[at..at + 2], halves[i]);
    }
}

// Bytes 36 to 67: two words and three counters.
fn put_contents(out: &mut [u8], contents: Contents)
    requires { length out.old ≡ 32 }
    ensures { out.new ≡ encoded (def.contents_fields contents) }
{
    put32(&mut out[0..4], contents.cpu_pc);
    put32(&mut out[4..8], contents.last_bios_opcode);
    put64(&mut out[8..16], contents.vram_write_count);
    put64(&mut out[16..24], contents.oam_write_count);
    put64(&mut out[24..32], contents.palette_write_count);
}

// Bytes 68 to 79: the previous data access, and seven zero bytes.
fn put_previous(out: &mut [u8], p: Previous)
    requires { length out.old ≡ 12 }
    ensures { out.new ≡ encoded (def.previous_fields p) }
{
    put32(&mut out[0..4], p.addr);
    out[4] = (p.size % 256) as u8;
    out[5..12].fill(0);
}

// The whole board, written over what stood there.
#[tactic(auto, unfolding(model::specs::BoardBytes::board_bytes))]
pub fn put_board(board: &mut [u8; BOARD_LENGTH], clock: Clock, halves: [u16; 8], contents: Contents)
    ensures { board.new ≡ def.board_bytes (record { clock = clock; halves = halves; contents = contents }) }
{
    put_clock(&mut board[0..20], clock);
    put_halves(&mut board[20..36], halves);
    put_contents(&mut board[36..68], contents);
    put_previous(&mut board[68..BOARD_LENGTH], clock.previous);
}

// The bytes of a fresh board.
#[tactic(auto, unfolding(model::specs::BoardBytes::board_bytes))]
pub fn fresh() -> [u8; BOARD_LENGTH]
    ensures { result ≡ def.board_bytes def.fresh_board }
{
    let board = Board::fresh();
    let clock = board.clock;
    let halves = board.halves;
    let contents = board.contents;
    let mut bytes = [0u8; BOARD_LENGTH];
    put_board(&mut bytes, clock, halves, contents);
    bytes
}
