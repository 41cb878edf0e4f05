//! Blocks of 136 bytes that go into a state, and the bytes that come out of it.
ghost use Rattle.std.specs.Prelude.{◌≡◌, ◌+◌, ◌<◌, bit_xor};
ghost use Rattle.sha3.specs.Sha3.{absorb, mixed, squeezed, word as word_at, words};
ghost use Rattle.sha3.specs.States.{in_row, lanes, plane};
ghost use Rattle.sha3.specs.Streams.{Chained};
ghost use Rattle.std.proofs.Common.{rules};

use crate::lanes::{Plane, State};
use crate::permutation::permute;
use block_stream::block::BlockState;

/// The eight bytes of the lane i of a block, lowest first.
fn read_lane(block: &[u8; 136], i: usize) -> u64
    requires { i < 17 }
    ensures { result ≡ word_at block.now i }
{
    // Byte by byte, as the definition is: with `as_chunks` each contract here would say where a chunk lies in the block.
    let at = 8 * i;
    u64::from_le_bytes([
        block[at],
        block[at + 1],
        block[at + 2],
        block[at + 3],
        block[at + 4],
        block[at + 5],
        block[at + 6],
        block[at + 7],
    ])
}

/// The plane with five lanes of the block, from i on, added.
fn mix_plane(p: Plane, block: &[u8; 136], i: usize) -> Plane
    requires { i + 4 < 17 }
    ensures { result ≡ plane (λ x. bit_xor (in_row p x) (word_at block.now (i + x))) }
{
    Plane {
        x0: p.x0 ^ read_lane(block, i),
        x1: p.x1 ^ read_lane(block, i + 1),
        x2: p.x2 ^ read_lane(block, i + 2),
        x3: p.x3 ^ read_lane(block, i + 3),
        x4: p.x4 ^ read_lane(block, i + 4),
    }
}

/// The state with the 17 lanes of the block added.
fn mix(s: State, block: &[u8; 136]) -> State
    ensures { lanes result ≡ mixed (lanes s) (words block.now) }
{
    let x0 = s.y3.x0 ^ read_lane(block, 15);
    let x1 = s.y3.x1 ^ read_lane(block, 16);
    State {
        y0: mix_plane(s.y0, block, 0),
        y1: mix_plane(s.y1, block, 5),
        y2: mix_plane(s.y2, block, 10),
        y3: Plane { x0, x1, ..s.y3 },
        y4: s.y4,
    }
}

/// The state after the block.
fn absorbed(s: State, block: &[u8; 136]) -> State
    ensures { lanes result ≡ absorb (lanes s) block.now }
{
    permute(mix(s, block))
}

impl BlockState<136> for State {
    ghost stands = { Chained };

    ghost sized = { Prim.search rules };

    fn take_block(&mut self, block: &[u8; 136]) {
        *self = absorbed(*self, block);
    }
}

/// The digest that a state holds: its first four lanes.
pub fn squeeze(s: State) -> [u8; 32]
    ensures { result ≡ squeezed (lanes s) }
{
    let mut bytes = [0; 32];
    bytes[0..8].copy_from_slice(&s.y0.x0.to_le_bytes());
    bytes[8..16].copy_from_slice(&s.y0.x1.to_le_bytes());
    bytes[16..24].copy_from_slice(&s.y0.x2.to_le_bytes());
    bytes[24..32].copy_from_slice(&s.y0.x3.to_le_bytes());
    bytes
}
