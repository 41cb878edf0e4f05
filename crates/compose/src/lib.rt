//! Stamps composed of a token and an index, piece by piece.
//!
//! `leads_of` finds what a stamp takes over from a token, `headers_for` makes every header anew for the index in it,
//! exact before anything is written, and `pieces_of` lists the bytes of the stamp in their order.
//! What a composed stamp is stands in `specs/Composed.antt`.
#![tactic(auto)]

mod frame;
mod framing;
mod headers;
mod heading;
mod laws;
mod leads;
mod pieces;
mod taking;

pub use headers::Headers;
pub use laws::laws_hold;
pub use leads::Leads;
pub use pieces::{headers_for, pieces_of};
pub use taking::leads_of;
