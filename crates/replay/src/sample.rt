// The sample as it is read: so many bytes at a time, or none if it ends before that.
ghost use Rattle.std.specs.Prelude.{◌≡◌, List, ℕ, IfOk};
ghost use Rattle.std.specs.Int.{w32, w64, from_le_bytes};
ghost use Rattle.std.specs.Io.KnownBytes.{Consumes};

use std::error::Error;
use std::io::Read;
use std::{fmt, io};

// The sample is cut off, or a case of it asks for more than there is.
#[derive(Clone, Copy, Debug)]
pub struct BadSample;

impl fmt::Display for BadSample {
    fn fmt<W: fmt::Write>(&self, f: &mut fmt::Formatter<W>) -> fmt::Result {
        write!(f, "bad sample")
    }
}

impl Error for BadSample {}

impl From<io::Error> for BadSample {
    fn from(_e: io::Error) -> BadSample {
        BadSample
    }
}

pub(crate) fn read_array<const N: usize, R: Read>(input: &mut R) -> Result<[u8; N], BadSample>
    ensures { IfOk result (λ bytes. Consumes (R.remaining input.old) (R.remaining input.new) bytes) }
{
    let mut bytes = [0u8; N];
    input.read_exact(&mut bytes)?;
    Ok(bytes)
}

pub(crate) fn read_u32<R: Read>(input: &mut R) -> Result<u32, BadSample>
    ensures { IfOk result (λ n. (bytes : List ℕ) × (n ≡ from_le_bytes w32 bytes)
        × Consumes (R.remaining input.old) (R.remaining input.new) bytes) }
{
    Ok(u32::from_le_bytes(read_array(input)?))
}

pub(crate) fn read_u64<R: Read>(input: &mut R) -> Result<u64, BadSample>
    ensures { IfOk result (λ n. (bytes : List ℕ) × (n ≡ from_le_bytes w64 bytes)
        × Consumes (R.remaining input.old) (R.remaining input.new) bytes) }
{
    Ok(u64::from_le_bytes(read_array(input)?))
}
