//! The content of a file, in one piece or in segments.
ghost use Rattle.content.specs.Few.{few_content};
ghost use Rattle.content.specs.Sources.{bytes_of};

use crate::segmented::Segmented;
use digest::plain::Plain;
use digest::source::Source;

/// The content that a file holds.
#[derive(Clone, Copy)]
pub enum FileContent<'a> {
    /// One octet string.
    Plain(Plain<'a>),
    /// Octet strings whose contents are joined.
    Segmented(Segmented<'a>),
}

impl<'a> Source for FileContent<'a> {
    ghost bytes = { bytes_of };

    ghost few = { few_content };

    fn len(&self) -> usize {
        match self {
            FileContent::Plain(source) => source.len(),
            FileContent::Segmented(source) => source.len(),
        }
    }

    fn read_at(&self, place: usize, block: &mut [u8]) -> usize {
        match self {
            FileContent::Plain(source) => source.read_at(place, block),
            FileContent::Segmented(source) => source.read_at(place, block),
        }
    }
}
