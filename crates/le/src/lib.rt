// Numbers in little-endian bytes, read from a slice and written to one. What a program calls is total: past the end of the
// bytes it reads 0. The readers and writers of fixed width leave the lengths to their callers, who test them once.
#![tactic(auto)]

ghost use Rattle.std.specs.Prelude.{◌≡◌, ◌++◌, ◌+◌, ◌*◌, ◌≤◌, ◌<◌, length, take, drop};
ghost use Rattle.model.specs.Base as def;

// ---- read at any place

// A byte; 0 past the end.
pub fn byte_at(s: &[u8], at: usize) -> u8
    ensures { result ≡ def.byte_at s.now at }
{
    s.get(at).copied().unwrap_or(0)
}

// A halfword; its bytes past the end are 0.
pub fn half_at(s: &[u8], at: usize) -> u16
    ensures { result ≡ def.number 2 s.now at }
{
    if s.len() <= at {
        return 0;
    }
    u16::from_le_bytes([byte_at(s, at), byte_at(s, at + 1)])
}

// A word; its bytes past the end are 0.
pub fn word_at(s: &[u8], at: usize) -> u32
    ensures { result ≡ def.number 4 s.now at }
{
    if s.len() <= at {
        return 0;
    }
    half_at(s, at) as u32 + 0x1_0000 * half_at(s, at + 2) as u32
}

// ---- read where the bytes stand. One function a width, here and where they are written, as std has one: a trait over the widths
// would need an impl for each besides

// The N bytes from a place on.
fn array_at<const N: usize>(s: &[u8], at: usize) -> [u8; N]
    requires { at + N ≤ length s.now }
    ensures { result ≡ take N (drop at s.now) }
{
    *s[at..at + N].as_array().unwrap()
}

pub fn read16(s: &[u8], at: usize) -> u16
    requires { at + 2 ≤ length s.now }
    ensures { result ≡ def.number 2 s.now at }
{
    u16::from_le_bytes(array_at(s, at))
}

pub fn read32(s: &[u8], at: usize) -> u32
    requires { at + 4 ≤ length s.now }
    ensures { result ≡ def.number 4 s.now at }
{
    u32::from_le_bytes(array_at(s, at))
}

pub fn read64(s: &[u8], at: usize) -> u64
    requires { at + 8 ≤ length s.now }
    ensures { result ≡ def.number 8 s.now at }
{
    u64::from_le_bytes(array_at(s, at))
}

// ---- a byte of a number

// Byte `k` of a number: what rotating it right by 8 * k brings lowest.
pub fn lane(value: u32, k: u32) -> u8
    requires { k < 4 }
    ensures { result ≡ def.byte_of k value }
{
    value.to_le_bytes()[k as usize]
}

// ---- written

pub fn put16(out: &mut [u8], v: u16)
    requires { length out.old ≡ 2 }
    ensures { out.new ≡ def.bytes 2 v }
{
    out.copy_from_slice(&v.to_le_bytes());
}

pub fn put32(out: &mut [u8], v: u32)
    requires { length out.old ≡ 4 }
    ensures { out.new ≡ def.bytes 4 v }
{
    out.copy_from_slice(&v.to_le_bytes());
}

pub fn put64(out: &mut [u8], v: u64)
    requires { length out.old ≡ 8 }
    ensures { out.new ≡ def.bytes 8 v }
{
    out.copy_from_slice(&v.to_le_bytes());
}
