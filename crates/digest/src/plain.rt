//! The source over bytes that lie in one piece.
ghost use Rattle.std.specs.Prelude.{◌≡◌, ◌≤◌, length, take};
ghost use Rattle.std.proofs.Math.Nat.{min-le_left};
ghost use Rattle.std.proofs.Common.{length-take};
ghost use Rattle.digest.specs.Plains.{bytes_of};

use crate::cutting::copy_part;
use crate::source::{MOST_BYTES, Source};
use areas::cut;

/// Borrowed bytes that are read as a source: the first 8,388,608 of them, and no maker takes more.
#[derive(Clone, Copy)]
pub struct Plain<'a> {
    pub(crate) bytes: &'a [u8],
}

impl<'a> Plain<'a> {
    /// The bytes that the source stands for.
    fn first(&self) -> &'a [u8]
        ensures { result.now ≡ bytes_of self.now }
    {
        cut(self.bytes, 0, MOST_BYTES)
    }
}

impl<'a> Source for Plain<'a> {
    ghost bytes = { bytes_of };

    ghost few = { λ s. rw (length-take 8388608 s.bytes.now) (min-le_left 8388608 (length s.bytes.now)) };

    fn len(&self) -> usize {
        self.first().len()
    }

    fn read_at(&self, place: usize, block: &mut [u8]) -> usize {
        copy_part(self.first(), place, block)
    }
}
