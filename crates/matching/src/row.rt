//! Rows of a survey.
use stamp_model::ListName;

/// Whether an index has an entry for an element.
#[derive(Clone, Copy, Debug, PartialEq, Eq)]
pub enum Side {
    Outside = 0,
    Inside = 1,
}

/// An element of a file: its list, where it begins, how long it is with its header, and its side.
#[derive(Clone, Copy, Debug, PartialEq, Eq)]
pub struct Row {
    pub list: ListName,
    pub start: usize,
    pub length: usize,
    pub side: Side,
}

/// How many elements are on each side.
#[derive(Clone, Copy, Debug, PartialEq, Eq)]
pub struct Tally {
    pub inside: usize,
    pub outside: usize,
}
