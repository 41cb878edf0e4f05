//! Digests and content sources: what each of them means, and digesting that is proved once for all of them.
//!
//! A digest implements `interface::Digest`, a content source `source::Source`. `digesting` works on any of them, and
//! `plain` is the source over bytes that lie in one piece.
#![tactic(auto)]

pub mod cutting;
pub mod digesting;
pub mod interface;
pub mod making;
pub mod numbering;
pub mod part;
pub mod plain;
pub mod refusal;
pub mod source;
