//! A digest that is kept.
ghost use Rattle.std.specs.Prelude.{◌≤◌};

/// The digest of a content: the first `width` bytes, of which there are at most 64.
// Not an `ArrayVec<u8, 64>`, which is not `Copy`: a digest is copied as a number is.
#[derive(Clone, Copy)]
pub struct ContentDigest {
    pub(crate) bytes: [u8; 64],
    pub(crate) width: usize,
    ghost few: { width ≤ 64 },
}
