//! Elements: a tag, a length and contents, nested.
//!
//! `read_header` takes one header apart, `walk` and its kin judge whole bytes,
//! a `Reader` hands out elements one by one, and `HeaderBytes` writes a header.
//! What bytes mean is defined in `specs/Trees.antt`, what breaks them in `specs/Faults.antt`.
#![tactic(auto)]

mod broken;
mod cause;
mod element;
mod fault;
mod header;
mod laws;
mod reader;
mod reading;
mod span;
mod walking;
mod written;

pub use broken::Broken;
pub use cause::Cause;
pub use element::Element;
pub use fault::Fault;
pub use header::{Header, read_header};
pub use laws::{laws_hold, samples_hold};
pub use reader::Reader;
pub use span::Span;
pub use walking::{walk, walk_first, walk_one};
pub use written::{HeaderBytes, header_size};
