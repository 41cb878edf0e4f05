//! The 25 lanes of a state: the lane A[x, y] is `state.yY.xX`.

// Fields and not arrays: with `[u64; 25]` and loops over it, SHA3-256 took 4.4 times as long.

/// Five lanes of one y.
#[derive(Clone, Copy)]
pub struct Plane {
    pub x0: u64,
    pub x1: u64,
    pub x2: u64,
    pub x3: u64,
    pub x4: u64,
}

/// Five planes.
#[derive(Clone, Copy)]
pub struct State {
    pub y0: Plane,
    pub y1: Plane,
    pub y2: Plane,
    pub y3: Plane,
    pub y4: Plane,
}
