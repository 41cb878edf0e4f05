//! Making a plain source: over bytes, or over a part of one of two slices.
ghost use Rattle.std.specs.Prelude.{◌≡◌};
ghost use Rattle.digest.specs.Parts.{part_of};
ghost use Rattle.digest.specs.Plains.{Made};

use crate::part::Part;
use crate::plain::Plain;
use crate::refusal::Refusal;
use crate::source::MOST_BYTES;
use areas::cut;

/// The bytes of the part that its slice has; none where the part ends before it begins.
pub fn part_of<'a>(buffer: &'a [u8], detached: &'a [u8], part: Part) -> &'a [u8]
    ensures { result.now ≡ part_of buffer.now detached.now part }
{
    match part {
        Part::Buffer { from, to } => cut(buffer, from, to),
        Part::Detached { from, to } => cut(detached, from, to),
    }
}

impl<'a> Plain<'a> {
    /// The source over the bytes. Refuses more than 8,388,608 of them.
    pub fn over(bytes: &'a [u8]) -> Result<Plain<'a>, Refusal>
        ensures { Made bytes.now result }
    {
        if bytes.len() > MOST_BYTES {
            return Err(Refusal::LongSource);
        }
        Ok(Plain { bytes })
    }

    /// The source over a part of one of two slices. Refuses a part of more than 8,388,608 bytes.
    pub fn over_part(buffer: &'a [u8], detached: &'a [u8], part: Part) -> Result<Plain<'a>, Refusal>
        ensures { Made (part_of buffer.now detached.now part) result }
    {
        Plain::over(part_of(buffer, detached, part))
    }
}
