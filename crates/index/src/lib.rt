//! Indexes of digests, and the algorithm that an index and an imprint field name.
//!
//! `read_index` and `read_algorithm` say where the parts lie, or the place of the first break; `first_too_many_entry`
//! keeps the limits. What an index is made of is defined in `specs/Grammar.antt`, and where its parts lie in
//! `specs/Places.antt`, both on trees of elements; how its bytes are read, in `specs/Records.antt`.
//! `write_index` writes the index of the elements that stand in three lists, and `index_length` tells its length before.
#![tactic(auto)]

mod algorithms;
mod bounds;
mod contents;
mod elements;
mod handing;
mod indexes;
mod laws;
mod located;
mod putting;
mod sizes;
mod writing;

pub use algorithms::read_algorithm;
pub use bounds::first_too_many_entry;
pub use elements::{ElementLists, Elements};
pub use indexes::read_index;
pub use laws::laws_hold;
pub use located::{AlgorithmParts, IndexParts};
pub use putting::put_digest;
pub use sizes::index_length;
pub use writing::write_index;
