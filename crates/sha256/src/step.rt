//! The rounds so far, and what they still need.
use crate::words::Words;

/// The working variables, and sixteen words of the schedule in a row, from the round that comes next: all that later words
/// are made of.
#[derive(Clone, Copy)]
pub struct Step {
    pub words: Words,
    pub window: [u32; 16],
}
