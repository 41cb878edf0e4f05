//! What a digest is: a state that bytes are given to, and what its digest of them means.
ghost use Rattle.std.specs.Prelude.{◌≡◌, ℕ, ◌≤◌, List, [], length};
ghost use Rattle.digest.specs.Bytes.{Bytes};
ghost use Rattle.digest.specs.Took.{Took, Wrote};

use crate::refusal::Refusal;

/// The most bytes that a digest takes.
pub const MOST_TAKEN: usize = 16_777_216;

/// A digest that bytes are given to block by block.
pub trait Digest: Sized + Drop {
    /// The lists of bytes that a state stands for.
    ghost stands: { Self → List ℕ → Type 0 };

    /// D: the digest of a list of bytes.
    ghost value: { List ℕ → List ℕ };

    /// L: how many bytes every digest has.
    ghost size: { ℕ };

    /// The body of the object identifier that names the digest.
    ghost oid: { List ℕ };

    /// A state that has taken nothing.
    fn start() -> Self
        ensures { stands result [] };

    /// L, in code.
    fn width() -> usize
        ensures { result ≡ size };

    /// The identifier's body, in code.
    fn identifier<'a>() -> &'a [u8]
        ensures { result.now ≡ oid };

    /// The block goes to the end of each list, or the state stands for what it stood for.
    fn take(&mut self, block: &[u8]) -> Result<(), Refusal>
        ensures { (xs : List ℕ) → stands self.old xs → Took stands self.new block.now xs result };

    /// D of each list goes to the front of the area, whose other bytes stay.
    fn finish(&self, area: &mut [u8]) -> Result<(), Refusal>
        ensures { (xs : List ℕ) → stands self.now xs → Wrote (value xs) size area.old area.new result };

    /// D gives exactly L bytes, whatever the list.
    ghost sized: { (xs : List ℕ) → (length (value xs) ≡ size) × Bytes (value xs) };

    ghost small: { (1 ≤ size) × (size ≤ 64) };

    ghost named: { (1 ≤ length oid) × (length oid ≤ 16) × Bytes oid };

    /// All lists that one state stands for are equally long.
    ghost level: { (s : Self) (xs ys : List ℕ) → stands s xs → stands s ys → length xs ≡ length ys };
}
