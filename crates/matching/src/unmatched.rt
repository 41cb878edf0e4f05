//! An entry that no element has the digest of.
use stamp_model::ListName;

/// The list, and the number of the entry in it, counted from 0.
#[derive(Clone, Copy, Debug, PartialEq, Eq)]
pub struct Unmatched {
    pub list: ListName,
    pub entry: usize,
}
