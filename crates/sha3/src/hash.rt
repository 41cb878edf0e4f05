//! SHA3-256 as a digest.
ghost use Rattle.std.specs.Prelude.{◌≡◌, ◌≤◌, [], ◌∷◌, length};
ghost use Rattle.sha3.specs.Sha3.{sha3 as Value, sha3, squeezed};
ghost use Rattle.sha3.specs.Streams.{Holds};
ghost use Rattle.std.proofs.Common.{rules};

use crate::block::squeeze;
use crate::lanes::{Plane, State};
use crate::padding::padded;
use crate::state::Sha3;
use block_stream::stream::Stream;
use digest::digesting::write_digest;
use digest::interface::Digest;
use digest::refusal::Refusal;

static OID: [u8; 9] = [96, 134, 72, 1, 101, 3, 4, 2, 8];

/// Five lanes of zeros.
const ZEROS: Plane = Plane {
    x0: 0,
    x1: 0,
    x2: 0,
    x3: 0,
    x4: 0,
};

/// The state before the first block.
const INITIAL: State = State {
    y0: ZEROS,
    y1: ZEROS,
    y2: ZEROS,
    y3: ZEROS,
    y4: ZEROS,
};

impl Digest for Sha3 {
    ghost stands = { λ s xs. Holds s.stream xs };

    ghost value = { Value };

    ghost size = { 32 };

    ghost oid = { 96 ∷ 134 ∷ 72 ∷ 1 ∷ 101 ∷ 3 ∷ 4 ∷ 2 ∷ 8 ∷ [] };

    ghost sized = { unfold sha3 squeezed in Prim.search rules };

    ghost small = { Prim.search rules };

    ghost named = { Prim.search rules };

    ghost level = { Prim.search rules };

    fn start() -> Sha3 {
        Sha3 {
            stream: Stream::new(INITIAL),
        }
    }

    fn width() -> usize {
        32
    }

    fn identifier<'a>() -> &'a [u8] {
        &OID
    }

    fn take(&mut self, block: &[u8]) -> Result<(), Refusal> {
        self.stream.take(block)
    }

    fn finish(&self, area: &mut [u8]) -> Result<(), Refusal> {
        write_digest(&squeeze(padded(self.stream)), area)
    }
}
