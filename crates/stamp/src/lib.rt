//! Archive stamps: tokens whose signer carries an index.
//!
//! `read_stamp` finds where the parts of a stamp lie, `read_bare_token` those of a token that a stamp can be made of,
//! and `read_index_bytes` those of an index; each says exactly what is at fault with other bytes, and in which layer.
//! What a stamp is stands in the crate `stamp_model`.
#![tactic(auto)]

mod carried;
mod indexes;
mod laws;
mod parts;
mod stamps;

pub use indexes::read_index_bytes;
pub use laws::laws_hold;
pub use parts::{StampFault, StampParts};
pub use stamps::{read_bare_token, read_stamp};
