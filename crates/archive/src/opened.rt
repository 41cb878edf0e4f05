//! A file that is opened at one of its signers.
use cms::{Message, Signer};

/// Where the parts lie of an accepted file, and of one of its signers.
#[derive(Clone, Copy)]
pub struct Opened {
    pub message: Message,
    pub signer: Signer,
}
