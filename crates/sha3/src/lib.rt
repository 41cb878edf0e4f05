//! SHA3-256 by FIPS 202.
//!
//! `state::Sha3` is a digest by its `impl` in `hash`: it takes bytes in any pieces, and finishes with the value that `specs/Sha3.antt` defines.
//! `laws` has what is proved of the definition itself.
#![tactic(auto)]

mod block;
pub mod hash;
pub mod lanes;
pub mod laws;
mod padding;
mod permutation;
pub mod state;
