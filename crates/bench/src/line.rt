// A line of the output while it is made, so that it goes out in one write and not in one for each number and word. Without a heap
// it has room for so many bytes and no more: whoever makes a line has another way for one that is longer.
ghost use Rattle.std.specs.Prelude.{◌≡◌, ◌-◌, ◌≤◌, [], length, min, Some, Ok, IsOk, OnOk};
ghost use Rattle.std.specs.Io.{WritesAtMost};
ghost use Rattle.std.specs.Io.KnownBytes.{Keeps, Appends, WriteAppends};

use std::io;
use std::io::Write;

// More than the longest line of a sheet has: 38 bytes of numbers, 32 grounds of 8 at most, and its end.
const CAPACITY: usize = 512;

#[derive(Drop)]
pub(crate) struct Line {
    bytes: [u8; CAPACITY],
    len: usize,
    ghost within: { len ≤ 512 },
}

impl Line {
    ghost use Rattle.bench.specs.Lines.{line_bytes};

    pub(crate) fn new() -> Line
        ensures { line_bytes result ≡ [] }
    {
        Line {
            bytes: [0; CAPACITY],
            len: 0,
        }
    }

    pub(crate) fn write_to<W: Write>(&self, out: &mut W) -> io::Result<()>
        ensures { OnOk result (Appends (W.contents out.old) (W.contents out.new) (line_bytes self.now)) }
    {
        out.write_all(&self.bytes[..self.len])
    }
}

// It takes what it has room for, as std's writer over a slice does.
impl Write for Line {
    ghost use Rattle.bench.specs.Lines.{line_bytes};

    ghost contents = { λ line. Some (line_bytes line) };

    fn write(&mut self, buf: &[u8]) -> io::Result<usize>
        ensures bound { WritesAtMost result buf.now }
        ensures bytes { WriteAppends (Some (line_bytes self.old)) (Some (line_bytes self.new)) result buf.now }
        ensures count { result ≡ Ok (min (length buf.now) (512 - self.old.len)) }
    {
        let n = buf.len().min(CAPACITY - self.len);
        let end = self.len + n;
        self.bytes[self.len..end].copy_from_slice(&buf[..n]);
        self.len = end;
        Ok(n)
    }

    // There is nothing behind it.
    fn flush(&mut self) -> io::Result<()>
        ensures bytes { Keeps (Some (line_bytes self.old)) (Some (line_bytes self.new)) }
        ensures ok { IsOk result }
    {
        Ok(())
    }
}
