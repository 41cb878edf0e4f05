//! What a stamp's imprint is the digest of: content type, digest of the content, the signer's six fields, and the index.
//!
//! `content_digest` digests the content that a call reads; which content that is, stands in `specs/Contents.antt`.
//! `input_of` finds the four pieces of an imprint input, which `write_input` writes and `digest_input` digests; `agrees`
//! says whether an imprint is that digest.
#![tactic(auto)]

mod agreeing;
mod contents;
mod digests;
mod fault;
mod inputs;
mod laws;
mod pieces;

pub use agreeing::{agrees, is_imprint_of};
pub use contents::content_digest;
pub use digests::ContentDigest;
pub use fault::ContentFault;
pub use inputs::{digest_input, input_length, input_of, write_input};
pub use laws::{laws_hold, samples_hold};
pub use pieces::{Input, Short};
