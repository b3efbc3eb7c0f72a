// Calls that fill lent bytes: what they wrote.
ghost use Rattle.std.specs.Prelude.{◌≡◌};
ghost use Rattle.planner.specs.Calls.{part_of, part_or, says, says_part, says_written};

use crate::service::Refusal;
use aspif::write::Short;

pub fn written(w: Result<usize, Short>) -> Result<usize, Refusal>
    ensures { says result ≡ says_written w }
{
    w.map_err(|Short { needed }| Refusal::Short { needed })
}

// What a call wrote, as a part of the lent bytes; empty where it was refused.
// Kept: a function beside the calls: a slice that a call gave would keep all of the lent bytes lent.
pub fn part<'a>(answer: Result<usize, Refusal>, bytes: &'a [u8]) -> &'a [u8]
    ensures { result.now ≡ part_of (says answer) bytes.now }
{
    match answer {
        Ok(n) if n <= bytes.len() => &bytes[..n],
        Ok(_) => bytes,
        Err(_) => &bytes[..0],
    }
}

// The same, or the refusal.
pub fn part_or<'a>(answer: Result<usize, Refusal>, bytes: &'a [u8]) -> Result<&'a [u8], Refusal>
    ensures { says_part result ≡ part_or (says answer) bytes.now }
{
    match answer {
        Ok(_) => Ok(part(answer, bytes)),
        Err(refusal) => Err(refusal),
    }
}
