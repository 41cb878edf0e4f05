//! A stamp that was read, and what can be at fault with one.
ghost use Rattle.std.specs.Prelude.{◌≡◌};
ghost use Rattle.stamp.specs.declared.parts.StampFault.TheVariants.{Token as InToken};

use der::Span;
use index::IndexParts;
use message::MessageFault;
use token::{TokenFault, TokenParts};

/// Where the parts of a stamp lie: its token, the index that the token's signer carries, and what the index holds.
/// Offsets of `entries` count from the start of the index, the others from the start of the token.
#[derive(Clone, Copy)]
pub struct StampParts {
    pub token: TokenParts,
    pub index: Span,
    pub entries: IndexParts,
}

/// What is at fault with a stamp, the token first.
#[derive(Clone, Copy, Debug, PartialEq, Eq)]
pub enum StampFault {
    Token(TokenFault),
    /// The token's signer does not carry just one index: the place of the field that is missing, wrong or surplus.
    Carried(usize),
    /// The index, which begins at `at`; places of the fault count from there.
    Index { at: usize, fault: MessageFault },
}

impl From<TokenFault> for StampFault {
    ghost from_gives = { λ fault e. e ≡ InToken fault };

    fn from(fault: TokenFault) -> StampFault {
        StampFault::Token(fault)
    }
}
