//! The line that tells a file's form, or why it is refused.
#![tactic(auto)]

mod line;

pub use line::tell_form;
