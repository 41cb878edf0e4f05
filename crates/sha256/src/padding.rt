//! The padding of a message.
ghost use Rattle.std.specs.Prelude.{◌≡◌, ℕ, ◌+◌, ◌%◌, ◌<◌, ◌≤◌, List};
ghost use Rattle.sha256.specs.Sha.{fill_bytes_of, padded as padded_message};
ghost use Rattle.sha256.specs.Streams.{Chained, Holds};

use crate::words::Words;
use block_stream::stream::Stream;

/// How many zero bytes stand between the byte 80 and the length of a message of `count` bytes:
/// the fewest that make whole blocks.
fn fill_bytes(count: usize) -> usize
    ensures is { result ≡ fill_bytes_of count }
    ensures fewest { (result < 64) × ((count + 1 + result + 8) % 64 ≡ 0) }
{
    (119 - count % 64) % 64
}

/// The hash value of the padded message.
pub(crate) fn padded(stream: Stream<Words, 64>) -> Words
    requires { stream.count ≤ 16777216 }
    ensures { (xs : List ℕ) → Holds stream xs → Chained result (padded_message xs) }
{
    let zeros = fill_bytes(stream.count);
    let bits = (8 * stream.count as u64).to_be_bytes();
    let mut padding = [0; 72];
    padding[0] = 0x80;
    padding[zeros + 1..zeros + 9].copy_from_slice(&bits);
    stream.padded(&padding[..zeros + 9])
}
