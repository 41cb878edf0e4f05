//! Bytes cut out of others, and bytes put into an area that a caller lends, one part behind another.
//!
//! `cut` gives the part between two places, as far as there is any, as defined in `specs/Cuts.antt`.
//! `put` writes bytes over those from a place on, `put_all` so many pieces, and each answers where they end.
//! What an area then holds is defined in `specs/Overlays.antt`, and what pieces are joined in `specs/Pieces.antt`.
#![tactic(auto)]

mod cutting;
mod putting;

pub use cutting::cut;
pub use putting::{put, put_all};
