//! Digests that work block by block: what all of them share.
//!
//! A digest gives a state that takes whole blocks, `block::BlockState`. `stream::Stream` takes bytes in any pieces, up to
//! the most that a digest takes, and gives them to the state in blocks.
#![tactic(auto)]

pub mod block;
pub mod stream;
