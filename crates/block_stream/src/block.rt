//! What takes whole blocks.
ghost use Rattle.std.specs.Prelude.{◌≡◌, ℕ, ◌*◌, ◌/◌, ◌%◌, ◌^◌, ◌<◌, List, ◌++◌, length, take, drop};

/// A state that takes whole blocks of `N` bytes.
pub trait BlockState<const N: usize>: Copy {
    /// The lists of bytes, whole blocks of them, that a state stands for.
    ghost stands: { Self → List ℕ → Type 0 };

    /// The block goes to the end of each list.
    fn take_block(&mut self, block: &[u8; N])
        ensures { (xs : List ℕ) → length xs % N ≡ 0 → stands self.old xs → stands self.new (xs ++ block.now) };

    /// A block has bytes, and fewer than memory.
    ghost sized: { (0 < N) × (N < 2 ^ 32) };
}

/// Gives the state the whole blocks of the bytes; answers the bytes that are left over.
/// The one place that takes a block: there the state stays in registers from block to block.
pub(crate) fn take_blocks<'a, S: BlockState<N>, const N: usize>(
    state: &mut S,
    bytes: &'a [u8],
) -> &'a [u8]
    ensures taken { (xs : List ℕ) → length xs % N ≡ 0 → S.stands state.old xs → S.stands state.new (xs ++ take (length bytes.now / N * N) bytes.now) }
    ensures left { result.now ≡ drop (length bytes.now / N * N) bytes.now }
{
    let (blocks, left) = bytes.as_chunks::<N>();
    for block in blocks {
        state.take_block(block);
    }
    left
}
