//! The rounds of the compression function.
ghost use Rattle.std.specs.Prelude.{◌≡◌, ℕ, ◌+◌, ◌<◌, ◌≤◌, List};
ghost use Rattle.sha256.specs.Sha.{Ch, Maj, Σ₀, Σ₁, σ₀, σ₁, M as word_of, mixed, round as round_of, added, compress};
ghost use Rattle.sha256.specs.Windows.{Slid, Reached};

use crate::step::Step;
use crate::words::Words;
use std::array;

const K: [u32; 64] = [
    0x428a2f98, 0x71374491, 0xb5c0fbcf, 0xe9b5dba5, 0x3956c25b, 0x59f111f1, 0x923f82a4, 0xab1c5ed5,
    0xd807aa98, 0x12835b01, 0x243185be, 0x550c7dc3, 0x72be5d74, 0x80deb1fe, 0x9bdc06a7, 0xc19bf174,
    0xe49b69c1, 0xefbe4786, 0x0fc19dc6, 0x240ca1cc, 0x2de92c6f, 0x4a7484aa, 0x5cb0a9dc, 0x76f988da,
    0x983e5152, 0xa831c66d, 0xb00327c8, 0xbf597fc7, 0xc6e00bf3, 0xd5a79147, 0x06ca6351, 0x14292967,
    0x27b70a85, 0x2e1b2138, 0x4d2c6dfc, 0x53380d13, 0x650a7354, 0x766a0abb, 0x81c2c92e, 0x92722c85,
    0xa2bfe8a1, 0xa81a664b, 0xc24b8b70, 0xc76c51a3, 0xd192e819, 0xd6990624, 0xf40e3585, 0x106aa070,
    0x19a4c116, 0x1e376c08, 0x2748774c, 0x34b0bcb5, 0x391c0cb3, 0x4ed8aa4a, 0x5b9cca4f, 0x682e6ff3,
    0x748f82ee, 0x78a5636f, 0x84c87814, 0x8cc70208, 0x90befffa, 0xa4506ceb, 0xbef9a3f7, 0xc67178f2,
];

// The short answers of these functions stay: the tactic's list of definitions cannot name those with Greek letters.

/// In this form it costs least: no complement.
fn choose(x: u32, y: u32, z: u32) -> u32
    ensures { result ≡ Ch x y z }
{
    z ^ (x & (y ^ z))
}

/// In this form, whose `x ^ y` is the `y ^ z` of the next round, it costs least.
fn majority(x: u32, y: u32, z: u32) -> u32
    ensures { result ≡ Maj x y z }
{
    ((x ^ y) & (y ^ z)) ^ y
}

fn big0(x: u32) -> u32
    ensures { result ≡ Σ₀ x }
{
    x.rotate_right(2) ^ x.rotate_right(13) ^ x.rotate_right(22)
}

fn big1(x: u32) -> u32
    ensures { result ≡ Σ₁ x }
{
    x.rotate_right(6) ^ x.rotate_right(11) ^ x.rotate_right(25)
}

fn small0(x: u32) -> u32
    ensures { result ≡ σ₀ x }
{
    x.rotate_right(7) ^ x.rotate_right(18) ^ (x >> 3)
}

fn small1(x: u32) -> u32
    ensures { result ≡ σ₁ x }
{
    x.rotate_right(17) ^ x.rotate_right(19) ^ (x >> 10)
}

/// One round on the working variables.
fn turn(v: Words, k: u32, w: u32) -> Words
    ensures { result ≡ round_of v k w }
{
    let t1 = v
        .h
        .wrapping_add(big1(v.e))
        .wrapping_add(choose(v.e, v.f, v.g))
        .wrapping_add(k)
        .wrapping_add(w);
    let t2 = big0(v.a).wrapping_add(majority(v.a, v.b, v.c));
    Words {
        a: t1.wrapping_add(t2),
        b: v.a,
        c: v.b,
        d: v.c,
        e: v.d.wrapping_add(t1),
        f: v.e,
        g: v.f,
        h: v.g,
    }
}

/// A word of the schedule, from those 2, 7, 15 and 16 places before it.
fn mix(w2: u32, w7: u32, w15: u32, w16: u32) -> u32
    ensures { result ≡ mixed w2 w7 w15 w16 }
{
    small1(w2)
        .wrapping_add(w7)
        .wrapping_add(small0(w15))
        .wrapping_add(w16)
}

/// Four rounds from round I on. I is a parameter so that each four is compiled for itself, with its constants.
fn four_rounds<const I: usize>(from: Step) -> Step
    requires { I + 4 ≤ 64 }
    ensures { (s : Words) (block : List ℕ) → Reached s block I from → Reached s block (I + 4) result }
{
    let w = from.window;
    let v1 = turn(from.words, K[I], w[0]);
    let x0 = mix(w[14], w[9], w[1], w[0]);
    let v2 = turn(v1, K[I + 1], w[1]);
    let x1 = mix(w[15], w[10], w[2], w[1]);
    let v3 = turn(v2, K[I + 2], w[2]);
    let x2 = mix(x0, w[11], w[3], w[2]);
    let v4 = turn(v3, K[I + 3], w[3]);
    let x3 = mix(x1, w[12], w[4], w[3]);
    let window = [
        w[4], w[5], w[6], w[7], w[8], w[9], w[10], w[11], w[12], w[13], w[14], w[15], x0, x1, x2,
        x3,
    ];
    Step { words: v4, window }
}

/// The word at i of a block, high byte first.
fn load(block: &[u8; 64], i: usize) -> u32
    requires { i < 16 }
    ensures { result ≡ word_of block.now i }
{
    // Byte by byte, as the definition is: with `as_chunks` the contract would say where a chunk lies in the block.
    let at = 4 * i;
    u32::from_be_bytes([block[at], block[at + 1], block[at + 2], block[at + 3]])
}

/// The words of a block: the schedule's first sixteen.
fn first_window(block: &[u8; 64]) -> [u32; 16]
    ensures { Slid block.now 0 result }
{
    array::from_fn(|i| load(block, i))
}

fn add(s: Words, t: Words) -> Words
    ensures { result ≡ added s t }
{
    Words {
        a: s.a.wrapping_add(t.a),
        b: s.b.wrapping_add(t.b),
        c: s.c.wrapping_add(t.c),
        d: s.d.wrapping_add(t.d),
        e: s.e.wrapping_add(t.e),
        f: s.f.wrapping_add(t.f),
        g: s.g.wrapping_add(t.g),
        h: s.h.wrapping_add(t.h),
    }
}

/// The hash value after a block.
pub(crate) fn compressed(s: Words, block: &[u8; 64]) -> Words
    ensures { result ≡ compress s block.now }
{
    let p = Step {
        words: s,
        window: first_window(block),
    };
    let p = four_rounds::<0>(p);
    let p = four_rounds::<4>(p);
    let p = four_rounds::<8>(p);
    let p = four_rounds::<12>(p);
    let p = four_rounds::<16>(p);
    let p = four_rounds::<20>(p);
    let p = four_rounds::<24>(p);
    let p = four_rounds::<28>(p);
    let p = four_rounds::<32>(p);
    let p = four_rounds::<36>(p);
    let p = four_rounds::<40>(p);
    let p = four_rounds::<44>(p);
    let p = four_rounds::<48>(p);
    let p = four_rounds::<52>(p);
    let p = four_rounds::<56>(p);
    let p = four_rounds::<60>(p);
    add(s, p.words)
}
