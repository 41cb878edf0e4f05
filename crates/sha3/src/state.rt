//! The digest's own type.
ghost use Rattle.std.specs.Prelude.{◌≤◌};

use crate::lanes::State;
use block_stream::stream::Stream;

/// A SHA3-256 that bytes are given to, at most 16,777,216 of them.
#[derive(Clone, Copy)]
pub struct Sha3 {
    pub stream: Stream<State, 136>,
    ghost few: { stream.count ≤ 16777216 },
}
