//! SHA-256 as a digest.
ghost use Rattle.std.specs.Prelude.{◌≡◌, ◌≤◌, [], ◌∷◌, length};
ghost use Rattle.sha256.specs.Sha.{written, sha256 as Sha, sha256};
ghost use Rattle.sha256.specs.Streams.{Chained, Holds};
ghost use Rattle.std.proofs.Common.{rules};

use crate::padding::padded;
use crate::rounds::compressed;
use crate::state::Sha256;
use crate::words::Words;
use block_stream::block::BlockState;
use block_stream::stream::Stream;
use digest::digesting::write_digest;
use digest::interface::Digest;
use digest::refusal::Refusal;

static OID: [u8; 9] = [96, 134, 72, 1, 101, 3, 4, 2, 1];

/// The initial hash value.
const INITIAL: Words = Words {
    a: 0x6a09e667,
    b: 0xbb67ae85,
    c: 0x3c6ef372,
    d: 0xa54ff53a,
    e: 0x510e527f,
    f: 0x9b05688c,
    g: 0x1f83d9ab,
    h: 0x5be0cd19,
};

/// The digest that a hash value is: its words, each high byte first.
fn digest_of(w: Words) -> [u8; 32]
    ensures { result ≡ written w }
{
    let mut bytes = [0; 32];
    bytes[0..4].copy_from_slice(&w.a.to_be_bytes());
    bytes[4..8].copy_from_slice(&w.b.to_be_bytes());
    bytes[8..12].copy_from_slice(&w.c.to_be_bytes());
    bytes[12..16].copy_from_slice(&w.d.to_be_bytes());
    bytes[16..20].copy_from_slice(&w.e.to_be_bytes());
    bytes[20..24].copy_from_slice(&w.f.to_be_bytes());
    bytes[24..28].copy_from_slice(&w.g.to_be_bytes());
    bytes[28..32].copy_from_slice(&w.h.to_be_bytes());
    bytes
}

impl BlockState<64> for Words {
    ghost stands = { Chained };

    ghost sized = { Prim.search rules };

    fn take_block(&mut self, block: &[u8; 64]) {
        *self = compressed(*self, block);
    }
}

impl Digest for Sha256 {
    ghost stands = { λ s xs. Holds s.stream xs };

    ghost value = { Sha };

    ghost size = { 32 };

    ghost oid = { 96 ∷ 134 ∷ 72 ∷ 1 ∷ 101 ∷ 3 ∷ 4 ∷ 2 ∷ 1 ∷ [] };

    ghost sized = { unfold sha256 written in Prim.search rules };

    ghost small = { Prim.search rules };

    ghost named = { Prim.search rules };

    ghost level = { Prim.search rules };

    fn start() -> Sha256 {
        Sha256 {
            stream: Stream::new(INITIAL),
        }
    }

    fn width() -> usize {
        32
    }

    fn identifier<'a>() -> &'a [u8] {
        &OID
    }

    fn take(&mut self, block: &[u8]) -> Result<(), Refusal> {
        self.stream.take(block)
    }

    fn finish(&self, area: &mut [u8]) -> Result<(), Refusal> {
        write_digest(&digest_of(padded(self.stream)), area)
    }
}
