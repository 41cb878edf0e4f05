//! Counts and their limits: at most 8 signers, and at most 64 entries in each other list of a message.
//!
//! `first_too_many` finds the first element too many of a file, `too_many` that of elements back to back.
//! What an element too many is, is defined in `specs/Limits.antt` of the rules.
#![tactic(auto)]

mod counted;
mod laws;
mod lists;

pub use counted::too_many;
pub use laws::laws_hold;
pub use lists::{MOST_ENTRIES, first_too_many};
