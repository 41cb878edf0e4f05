//! A header as bytes.
ghost use Rattle.std.specs.Prelude.{◌≤◌};

/// The bytes of a header: a tag, and the shortest form of a length.
// An array with a count: it is `Copy` and needs no heap, where a `Vec` needs one and an `ArrayVec` is no `Copy`.
#[derive(Clone, Copy)]
pub struct HeaderBytes {
    bytes: [u8; 4],
    count: usize,
    ghost few: { count ≤ 4 },
}

mod writing;

pub use writing::header_size;
