// What the store, the BIOS, the ROM, the answers and the second buffer, that of the shares or of the grounds, hold before a run.
// It follows from the case's seed, so the sample need not have these bytes.
ghost use Rattle.std.specs.Prelude.{◌≡◌, ◌↔◌, ℕ, ◌<◌, length, get_or, IsTrue};
ghost use Rattle.replay.specs.Pattern.{pattern_byte, tag_of};

// A buffer that the sample does not have, by its tag in the formula.
#[derive(Clone, Copy)]
pub enum Buffer {
    Store = 1,
    Bios = 2,
    Rom = 3,
    Answers = 4,
    Second = 5,
}

// Each number is reduced first: it gives the same, and no product wraps.
pub fn byte_at(i: usize, seed: u32, buffer: Buffer) -> u8
    ensures { result ≡ pattern_byte seed (tag_of buffer) i }
{
    let place = i % 251 * 31 + i / 256 % 251 * 17;
    let start = (seed % 251 * 13 + buffer as u32 * 101) as usize;
    ((place + start) % 251) as u8
}

pub fn fill(out: &mut [u8], seed: u32, buffer: Buffer)
    ensures { (k : ℕ) → k < length out.new → get_or out.new k 0 ≡ pattern_byte seed (tag_of buffer) k }
{
    for (i, byte) in out.iter_mut().enumerate() {
        *byte = byte_at(i, seed, buffer);
    }
}

pub fn is_filled(a: &[u8], seed: u32, buffer: Buffer) -> bool
    ensures { IsTrue result ↔
        ((k : ℕ) → k < length a.now → get_or a.now k 0 ≡ pattern_byte seed (tag_of buffer) k) }
{
    a.iter()
        .enumerate()
        .all(|(i, byte)| *byte == byte_at(i, seed, buffer))
}
