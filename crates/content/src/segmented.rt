//! The source over segments.
ghost use Rattle.content.specs.Few.{few_segmented};
ghost use Rattle.content.specs.Segments.{joined_of};
ghost use Rattle.content.specs.Sources.{segmented_bytes, Made};

use crate::segments::{count_bytes, read_segments};
use der::Reader;
use digest::refusal::Refusal;
use digest::source::{MOST_BYTES, Source};

/// Segments that are read as a source: the contents of the elements that the reader stands on, joined; the first
/// 8,388,608 bytes of them, and no maker takes more.
#[derive(Clone, Copy)]
pub struct Segmented<'a> {
    segments: Reader<'a>,
}

impl<'a> Segmented<'a> {
    /// The source over the segments. Refuses more than 8,388,608 bytes.
    pub fn over(segments: Reader<'a>) -> Result<Segmented<'a>, Refusal>
        ensures { Made (joined_of segments.entry) result }
    {
        if count_bytes(segments) > MOST_BYTES {
            return Err(Refusal::LongSource);
        }
        Ok(Segmented { segments })
    }
}

impl<'a> Source for Segmented<'a> {
    ghost bytes = { segmented_bytes };

    ghost few = { few_segmented };

    fn len(&self) -> usize {
        count_bytes(self.segments).min(MOST_BYTES)
    }

    fn read_at(&self, place: usize, block: &mut [u8]) -> usize {
        let room = block.len().min(MOST_BYTES.saturating_sub(place));
        read_segments(self.segments, place, &mut block[0..room])
    }
}
