//! The digests of a list's elements, made once.
ghost use Rattle.std.specs.Prelude.{◌*◌, ◌≤◌};

/// At most 64 digests of one size, one behind another.
// An array with a size and a count: `put_digest` writes into an area, and an `ArrayVec` lends only the bytes that it holds,
// so each digest would be made beside it and copied.
#[derive(Clone, Copy)]
pub struct Digests {
    bytes: [u8; 4096],
    size: usize,
    count: usize,
    ghost some: { 1 ≤ size },
    ghost room: { count * size ≤ 4096 },
}

mod digesting;
