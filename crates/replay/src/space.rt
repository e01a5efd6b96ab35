// Space for a buffer: bytes of a fixed number, of which a case uses the first. So no buffer is asked of an allocator, and none
// can be refused.
ghost use Rattle.std.specs.Prelude.{◌≡◌, ◌↔◌, ◌≤◌, length, IsOk, IfOk};
ghost use Rattle.std.specs.Io.KnownBytes.{Consumes};

use crate::pattern;
use crate::pattern::Buffer;
use crate::sample::BadSample;
use std::io::Read;

// How many of N bytes are in use. A struct of its own, since a part of an array beside a ghost field can't be lent.
#[derive(Clone, Copy)]
pub struct Length<const N: usize> {
    pub n: usize,
    ghost fits: { n ≤ N },
}

impl<const N: usize> Length<N> {
    pub(crate) fn of(n: usize) -> Result<Length<N>, BadSample>
        ensures fits { IsOk result ↔ (n ≤ N) }
        ensures value { IfOk result (λ l. l.n ≡ n) }
    {
        if n > N {
            return Err(BadSample);
        }
        Ok(Length { n })
    }
}

#[derive(Drop)]
pub struct Space<const N: usize> {
    pub bytes: [u8; N],
    pub len: Length<N>,
}

impl<const N: usize> Space<N> {
    ghost use Rattle.replay.specs.Pattern.{IsFilled};
    ghost use Rattle.replay.specs.Space.{in_use};

    pub(crate) fn used(&self) -> &[u8]
        ensures { result.now ≡ in_use self.now }
    {
        &self.bytes[..self.len.n]
    }

    // Uses n bytes, as they come next in the sample.
    pub(crate) fn read<R: Read>(&mut self, input: &mut R, n: usize) -> Result<(), BadSample>
        ensures len { IfOk result (λ _. length (in_use self.new) ≡ n) }
        ensures bytes { IfOk result (λ _. Consumes (R.remaining input.old) (R.remaining input.new) (in_use self.new)) }
    {
        self.len = Length::of(n)?;
        input.read_exact(&mut self.bytes[..n])?;
        Ok(())
    }

    // Uses n bytes, as they are before the run.
    pub(crate) fn fill(&mut self, n: usize, seed: u32, buffer: Buffer) -> Result<(), BadSample>
        ensures fits { IsOk result ↔ (n ≤ N) }
        ensures bytes { IfOk result (λ _. IsFilled (in_use self.new) n seed buffer) }
    {
        self.len = Length::of(n)?;
        pattern::fill(&mut self.bytes[..n], seed, buffer);
        Ok(())
    }
}
