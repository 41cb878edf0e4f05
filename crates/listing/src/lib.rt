//! Outlines of files: the elements in reading order, or why the file is refused.
#![tactic(auto)]

mod elements;
mod laws;
mod line;
mod outline;
mod refusal;

pub use laws::laws_hold;
pub use line::Line;
pub use outline::{Outline, OutlineError, make_outline, tell_outline};
pub use refusal::Refusal;
