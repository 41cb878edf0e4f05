//! Bytes in any pieces, given to a state in whole blocks.
ghost use Rattle.std.specs.Prelude.{◌≡◌, ℕ, ◌+◌, ◌%◌, ◌^◌, ◌<◌, ◌≤◌, List, [], ◌++◌, length};
ghost use Rattle.digest.specs.Took.{Took, most};
ghost use Rattle.areas.specs.Overlays.{Overlaid};
ghost use Rattle.block_stream.specs.Streams.{Holds};

use crate::block::{BlockState, take_blocks};
use areas::put;
use digest::interface::MOST_TAKEN;
use digest::refusal::Refusal;

/// The state after the whole blocks so far; what is left over stands at the front of the buffer.
#[derive(Clone, Copy)]
pub struct Stream<S, const N: usize> {
    pub state: S,
    pub buffer: [u8; N],
    // No bound here: `padded` counts the padding too, which may pass the most that a digest takes. The digests' own types
    // have the bound.
    pub count: usize,
}

/// Writes the bytes as `put` does; one alone is stored, which costs less than the call that copies any number.
fn put_few(area: &mut [u8], at: usize, bytes: &[u8]) -> usize
    ensures { Overlaid area.old area.new at bytes.now result }
{
    match bytes {
        [byte] if at < area.len() => {
            area[at] = *byte;
            at + 1
        }
        _ => put(area, at, bytes),
    }
}

impl<S: BlockState<N>, const N: usize> Stream<S, N> {
    /// The stream that has taken nothing.
    pub fn new(state: S) -> Stream<S, N>
        ensures holds { S.stands state [] → Holds N S.stands result [] }
        ensures counts { result.count ≡ 0 }
    {
        Stream {
            state,
            buffer: [0; N],
            count: 0,
        }
    }

    /// Takes the bytes, whole blocks straight from the slice, but for one that is begun in the buffer.
    fn absorb(&mut self, bytes: &[u8])
        ensures holds { (xs : List ℕ) → Holds N S.stands self.old xs → length xs + length bytes.now < 2 ^ 64 → Holds N S.stands self.new (xs ++ bytes.now) }
        ensures counts { self.old.count + length bytes.now < 2 ^ 64 → self.new.count ≡ self.old.count + length bytes.now }
    {
        let count = self.count;
        let used = count % N;
        let room = N - used;
        if bytes.len() < room {
            put_few(&mut self.buffer, used, bytes);
        } else if used == 0 {
            let left = take_blocks(&mut self.state, bytes);
            put(&mut self.buffer, 0, left);
        } else {
            let (first, rest) = bytes.split_at(room);
            put_few(&mut self.buffer, used, first);
            take_blocks(&mut self.state, &self.buffer);
            let left = take_blocks(&mut self.state, rest);
            put(&mut self.buffer, 0, left);
        }
        // It wraps only past what `take` lets in, so that no caller has to show that the sum fits. It is written last, so that it
        // stays in a register where the calls stand in a loop.
        self.count = count.wrapping_add(bytes.len());
    }

    /// Takes the bytes, or refuses them where there would be more than a digest takes.
    pub fn take(&mut self, bytes: &[u8]) -> Result<(), Refusal>
        ensures few { self.old.count ≤ most → self.new.count ≤ most }
        ensures took { (xs : List ℕ) → Holds N S.stands self.old xs → Took (Holds N S.stands) self.new bytes.now xs result }
    {
        if self.count.saturating_add(bytes.len()) > MOST_TAKEN {
            return Err(Refusal::LongInput);
        }
        self.absorb(bytes);
        Ok(())
    }

    /// The state after the bytes and a padding that makes whole blocks of them.
    pub fn padded(self, padding: &[u8]) -> S
        ensures { (xs : List ℕ) → Holds N S.stands self xs → length xs + length padding.now < 2 ^ 64 → (length xs + length padding.now) % N ≡ 0
            → S.stands result (xs ++ padding.now) }
    {
        let mut stream = self;
        stream.absorb(padding);
        stream.state
    }
}
