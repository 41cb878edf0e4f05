//! The content of a file as a content source: in one piece, or in segments that are joined.
//!
//! `content_of` finds the content of a file that is read. What the content of a file is as bytes is defined in
//! `specs/Contents.antt`, what segments joined are in `specs/Segments.antt`.
#![tactic(auto)]

mod contents;
mod finding;
mod laws;
mod segmented;
mod segments;

pub use contents::FileContent;
pub use finding::content_of;
pub use laws::laws_hold;
pub use segmented::Segmented;
