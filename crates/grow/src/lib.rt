//! Files that grow in place, inside elements whose lengths grow with them.
//!
//! A `GrowingFile` is the first bytes of a buffer. Its `append` puts bytes behind the contents of an element deep inside it,
//! `insert_field` makes a new element between two others; the headers of all elements around them follow.
//! `measure_append` and `measure_field` answer the new length, or the refusal, with nothing written.
//! Contents inside elements are defined in `specs/Frames.antt`, what growing does in `specs/Changes.antt`.
#![tactic(auto)]

mod appending;
mod file;
mod full;
mod growing;
mod headers;
mod measuring;
mod putting;

pub use file::GrowingFile;
pub use full::Full;
pub use measuring::{joined_length, measure_append, measure_field};
