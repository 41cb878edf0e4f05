//! Bytes as one message of a form, within its limits: where its parts lie, or exactly what is at fault.
//!
//! A file and a time-stamp token are read here alike, each with its settings and its levels.
#![tactic(auto)]

mod fault;
mod forming;
mod laws;

pub use fault::MessageFault;
pub use forming::{read_formed, read_within};
pub use laws::laws_hold;
