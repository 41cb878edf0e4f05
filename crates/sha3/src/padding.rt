//! The padding of a message.
ghost use Rattle.std.specs.Prelude.{◌≡◌, ℕ, ◌≤◌, List};
ghost use Rattle.sha3.specs.Sha3.{padded as padded_message};
ghost use Rattle.sha3.specs.Streams.{Chained, Holds};

use crate::lanes::State;
use block_stream::stream::Stream;

/// The state after the padded message: behind its bytes the bits 01, a one bit, zeros, and a one bit as the last.
pub(crate) fn padded(stream: Stream<State, 136>) -> State
    requires { stream.count ≤ 16777216 }
    ensures { (xs : List ℕ) → Holds stream xs → Chained result (padded_message xs) }
{
    let last = 135 - stream.count % 136;
    let mut padding = [0; 136];
    padding[0] = 0x06;
    padding[last] |= 0x80;
    stream.padded(&padding[..last + 1])
}
