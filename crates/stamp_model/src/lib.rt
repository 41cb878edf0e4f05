//! What an index, a time-stamp token and an archive stamp are, what a stamp stands for, and when it covers.
//!
//! All of it is said of the parts of a file, in `specs/`: `Indexes.antt`, `Tokens.antt`, `Stamps.antt`, `Covering.antt`,
//! and `Later.antt`, which says when one file is as late a copy as another.
#![tactic(auto)]

mod laws;
mod lists;
mod numbering;

pub use laws::laws_hold;
pub use lists::ListName;
