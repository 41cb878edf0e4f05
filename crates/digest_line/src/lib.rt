//! Digests as lines of text.
#![tactic(auto)]

pub mod line;
