//! SHA-256 as FIPS 180-4 defines it: the type `state::Sha256`, a digest by its `impl` in `hash`.
#![tactic(auto)]

pub mod example;
pub mod hash;
mod padding;
mod rounds;
pub mod state;
mod step;
mod words;
