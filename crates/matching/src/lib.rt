//! Entries of an index against the elements of a file's lists: which entry has no element of its digest,
//! and which elements have an entry.
//!
//! `first_unmatched` finds the first entry without an element, as defined in `specs/Unmatched.antt`; `fill_rows` lists the
//! elements with their sides, as defined in `specs/Rows.antt`. Each element is digested once.
#![tactic(auto)]

mod digests;
mod finding;
mod laws;
mod row;
mod surveying;
mod unmatched;

pub use digests::Digests;
pub use finding::first_unmatched;
pub use laws::laws_hold;
pub use row::{Row, Side, Tally};
pub use surveying::fill_rows;
pub use unmatched::Unmatched;
