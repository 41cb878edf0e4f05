//! Time-stamp tokens: signed messages with one signer, whose content tells what was stamped.
//!
//! `read_token` finds where the parts of a token lie. What a token is stands in the crate `stamp_model`; the
//! grammar of what it tells in `specs/Grammar.antt`, and what is at fault with other bytes in `specs/Tokens.antt`.
#![tactic(auto)]

mod infos;
mod laws;
mod located;
mod parts;
mod tokens;

pub use infos::read_info;
pub use laws::laws_hold;
pub use located::{ImprintParts, InfoParts};
pub use parts::{TokenFault, TokenParts};
pub use tokens::read_token;
