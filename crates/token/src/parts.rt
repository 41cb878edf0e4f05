//! A token that was read, and what can be at fault with one.
ghost use Rattle.std.specs.Prelude.{◌≡◌};
ghost use Rattle.token.specs.declared.parts.TokenFault.TheVariants.{Message as InMessage};

use crate::located::InfoParts;
use cms::{Message, Signer};
use der::Span;
use message::MessageFault;

/// Where the parts of a token lie: its message, its one signer, and the octet string whose contents tell `info`.
/// Offsets of `info` count from the start of these contents, the others from the start of the token.
#[derive(Clone, Copy)]
pub struct TokenParts {
    pub message: Message,
    pub signer: Signer,
    pub octets: Span,
    pub info: InfoParts,
}

/// What is at fault with a token, the message first.
#[derive(Clone, Copy, Debug, PartialEq, Eq)]
pub enum TokenFault {
    Message(MessageFault),
    /// The contents of its octet string, which begin at `at`; places of the fault count from there.
    Info { at: usize, fault: MessageFault },
}

impl From<MessageFault> for TokenFault {
    ghost from_gives = { λ fault e. e ≡ InMessage fault };

    fn from(fault: MessageFault) -> TokenFault {
        TokenFault::Message(fault)
    }
}
