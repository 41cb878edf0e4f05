//! KECCAK-p[1600, 24], step by step as the standard names them.
//!
//! Between the rounds six lanes are kept with every bit the other way: χ then takes 5 complements a round in place of 25.
ghost use Rattle.std.specs.Prelude.{◌≡◌, bit_xor};
ghost use Rattle.sha3.specs.Keccak.{C, D, rotl, θ, ρ, π, χ, ι, Rnd, keccak};
ghost use Rattle.sha3.specs.Sha3.{mixed};
ghost use Rattle.sha3.specs.States.{in_row, lanes, plane, row};
ghost use Rattle.sha3.specs.Turned.{before, in_plane, kept, righted, twisted};

use crate::lanes::{Plane, State};

const CONSTANTS: [u64; 24] = [
    0x0000000000000001,
    0x0000000000008082,
    0x800000000000808a,
    0x8000000080008000,
    0x000000000000808b,
    0x0000000080000001,
    0x8000000080008081,
    0x8000000000008009,
    0x000000000000008a,
    0x0000000000000088,
    0x0000000080008009,
    0x000000008000000a,
    0x000000008000808b,
    0x800000000000008b,
    0x8000000000008089,
    0x8000000000008003,
    0x8000000000008002,
    0x8000000000000080,
    0x000000000000800a,
    0x800000008000000a,
    0x8000000080008081,
    0x8000000000008080,
    0x0000000080000001,
    0x8000000080008008,
];

/// The parity of each column.
fn columns(s: State) -> Plane
    ensures { result ≡ plane (C (lanes s)) }
{
    Plane {
        x0: s.y0.x0 ^ s.y1.x0 ^ s.y2.x0 ^ s.y3.x0 ^ s.y4.x0,
        x1: s.y0.x1 ^ s.y1.x1 ^ s.y2.x1 ^ s.y3.x1 ^ s.y4.x1,
        x2: s.y0.x2 ^ s.y1.x2 ^ s.y2.x2 ^ s.y3.x2 ^ s.y4.x2,
        x3: s.y0.x3 ^ s.y1.x3 ^ s.y2.x3 ^ s.y3.x3 ^ s.y4.x3,
        x4: s.y0.x4 ^ s.y1.x4 ^ s.y2.x4 ^ s.y3.x4 ^ s.y4.x4,
    }
}

/// What θ adds to each lane of a column.
fn effects(s: State) -> Plane
    ensures { result ≡ plane (D (lanes s)) }
{
    let c = columns(s);
    Plane {
        x0: c.x4 ^ c.x1.rotate_left(1),
        x1: c.x0 ^ c.x2.rotate_left(1),
        x2: c.x1 ^ c.x3.rotate_left(1),
        x3: c.x2 ^ c.x4.rotate_left(1),
        x4: c.x3 ^ c.x0.rotate_left(1),
    }
}

/// Two planes, lane by lane.
fn add(p: Plane, q: Plane) -> Plane
    ensures { result ≡ plane (λ x. bit_xor (in_row p x) (in_row q x)) }
{
    Plane {
        x0: p.x0 ^ q.x0,
        x1: p.x1 ^ q.x1,
        x2: p.x2 ^ q.x2,
        x3: p.x3 ^ q.x3,
        x4: p.x4 ^ q.x4,
    }
}

/// θ: each lane takes what its column's neighbours say.
fn theta(s: State) -> State
    ensures { lanes result ≡ θ (lanes s) }
{
    let d = effects(s);
    State {
        y0: add(s.y0, d),
        y1: add(s.y1, d),
        y2: add(s.y2, d),
        y3: add(s.y3, d),
        y4: add(s.y4, d),
    }
}

/// Each lane turned left by its number.
fn turn(p: Plane, n0: u32, n1: u32, n2: u32, n3: u32, n4: u32) -> Plane
    ensures { result ≡ record { x0 = rotl n0 p.x0; x1 = rotl n1 p.x1; x2 = rotl n2 p.x2; x3 = rotl n3 p.x3; x4 = rotl n4 p.x4 } }
{
    Plane {
        x0: p.x0.rotate_left(n0),
        x1: p.x1.rotate_left(n1),
        x2: p.x2.rotate_left(n2),
        x3: p.x3.rotate_left(n3),
        x4: p.x4.rotate_left(n4),
    }
}

/// ρ: each lane turned by its offset.
fn rho(s: State) -> State
    ensures { lanes result ≡ ρ (lanes s) }
{
    State {
        y0: turn(s.y0, 0, 1, 62, 28, 27),
        y1: turn(s.y1, 36, 44, 6, 55, 20),
        y2: turn(s.y2, 3, 10, 43, 25, 39),
        y3: turn(s.y3, 41, 45, 15, 21, 8),
        y4: turn(s.y4, 18, 2, 61, 56, 14),
    }
}

/// The plane of five lanes.
fn lay(x0: u64, x1: u64, x2: u64, x3: u64, x4: u64) -> Plane
    ensures { result ≡ record { x0 = x0; x1 = x1; x2 = x2; x3 = x3; x4 = x4 } }
{
    Plane { x0, x1, x2, x3, x4 }
}

/// π: the lanes in their new places.
fn pi(s: State) -> State
    ensures { lanes result ≡ π (lanes s) }
{
    State {
        y0: lay(s.y0.x0, s.y1.x1, s.y2.x2, s.y3.x3, s.y4.x4),
        y1: lay(s.y0.x3, s.y1.x4, s.y2.x0, s.y3.x1, s.y4.x2),
        y2: lay(s.y0.x1, s.y1.x2, s.y2.x3, s.y3.x4, s.y4.x0),
        y3: lay(s.y0.x4, s.y1.x0, s.y2.x1, s.y3.x2, s.y4.x3),
        y4: lay(s.y0.x2, s.y1.x3, s.y2.x4, s.y3.x0, s.y4.x1),
    }
}

// The five planes differ in which lanes are kept turned, and so in their formulas: a function for each.

/// χ of the plane 0, on lanes as they are kept.
fn twist0(p: Plane) -> Plane
    ensures { mixed (row result) (in_plane 0 kept) ≡ twisted (mixed (row p) (in_plane 0 before)) }
{
    Plane {
        x0: p.x0 ^ (p.x1 | p.x2),
        x1: p.x1 ^ (!p.x2 | p.x3),
        x2: p.x2 ^ (p.x3 & p.x4),
        x3: p.x3 ^ (p.x4 | p.x0),
        x4: p.x4 ^ (p.x0 & p.x1),
    }
}

/// χ of the plane 1, on lanes as they are kept.
fn twist1(p: Plane) -> Plane
    ensures { mixed (row result) (in_plane 1 kept) ≡ twisted (mixed (row p) (in_plane 1 before)) }
{
    Plane {
        x0: p.x0 ^ (p.x1 | p.x2),
        x1: p.x1 ^ (p.x2 & p.x3),
        x2: p.x2 ^ (p.x3 | !p.x4),
        x3: p.x3 ^ (p.x4 | p.x0),
        x4: p.x4 ^ (p.x0 & p.x1),
    }
}

/// χ of the plane 2, on lanes as they are kept.
fn twist2(p: Plane) -> Plane
    ensures { mixed (row result) (in_plane 2 kept) ≡ twisted (mixed (row p) (in_plane 2 before)) }
{
    Plane {
        x0: p.x0 ^ (p.x1 | p.x2),
        x1: p.x1 ^ (p.x2 & p.x3),
        x2: p.x2 ^ (!p.x3 & p.x4),
        x3: !p.x3 ^ (p.x4 | p.x0),
        x4: p.x4 ^ (p.x0 & p.x1),
    }
}

/// χ of the plane 3, on lanes as they are kept.
fn twist3(p: Plane) -> Plane
    ensures { mixed (row result) (in_plane 3 kept) ≡ twisted (mixed (row p) (in_plane 3 before)) }
{
    Plane {
        x0: p.x0 ^ (p.x1 & p.x2),
        x1: p.x1 ^ (p.x2 | p.x3),
        x2: p.x2 ^ (!p.x3 | p.x4),
        x3: !p.x3 ^ (p.x4 & p.x0),
        x4: p.x4 ^ (p.x0 | p.x1),
    }
}

/// χ of the plane 4, on lanes as they are kept.
fn twist4(p: Plane) -> Plane
    ensures { mixed (row result) (in_plane 4 kept) ≡ twisted (mixed (row p) (in_plane 4 before)) }
{
    Plane {
        x0: p.x0 ^ (!p.x1 & p.x2),
        x1: !p.x1 ^ (p.x2 | p.x3),
        x2: p.x2 ^ (p.x3 & p.x4),
        x3: p.x3 ^ (p.x4 | p.x0),
        x4: p.x4 ^ (p.x0 & p.x1),
    }
}

/// χ, on lanes as they are kept.
fn chi(s: State) -> State
    ensures { righted (lanes result) ≡ χ (mixed (lanes s) before) }
{
    State {
        y0: twist0(s.y0),
        y1: twist1(s.y1),
        y2: twist2(s.y2),
        y3: twist3(s.y3),
        y4: twist4(s.y4),
    }
}

/// ι: the first lane takes the round's constant.
fn iota(s: State, constant: u64) -> State
    ensures { lanes result ≡ ι constant (lanes s) }
{
    State {
        y0: Plane {
            x0: s.y0.x0 ^ constant,
            ..s.y0
        },
        ..s
    }
}

/// A round, with its constant, on lanes as they are kept.
fn round(s: State, constant: u64) -> State
    ensures { righted (lanes result) ≡ Rnd constant (righted (lanes s)) }
{
    iota(chi(pi(rho(theta(s)))), constant)
}

/// The lanes that are kept turned, each bit the other way.
fn turn_kept(s: State) -> State
    ensures { lanes result ≡ righted (lanes s) }
{
    State {
        y0: Plane {
            x1: !s.y0.x1,
            x2: !s.y0.x2,
            ..s.y0
        },
        y1: Plane {
            x3: !s.y1.x3,
            ..s.y1
        },
        y2: Plane {
            x2: !s.y2.x2,
            ..s.y2
        },
        y3: Plane {
            x2: !s.y3.x2,
            ..s.y3
        },
        y4: Plane {
            x0: !s.y4.x0,
            ..s.y4
        },
    }
}

/// The 24 rounds.
pub fn permute(s: State) -> State
    ensures { lanes result ≡ keccak (lanes s) }
{
    let mut t = turn_kept(s);
    for constant in CONSTANTS {
        t = round(t, constant);
    }
    turn_kept(t)
}
