//! Why a call is refused.
ghost use Rattle.std.specs.Prelude.{◌≡◌, Some};
ghost use Rattle.archive.specs.Steps.{refusal_of};
ghost use Rattle.archive.specs.Texts.{refusal_text};

use der::Fault;
use message::MessageFault;
use std::fmt;

/// The first reason, in the order of the cases.
#[derive(Clone, Copy, Debug, PartialEq, Eq)]
pub enum Refusal {
    /// The length is 0, above 65,535, or above that of the buffer.
    Length,
    /// An element of the file is at fault.
    Element(Fault),
    /// A field is missing, wrong or surplus.
    Field(usize),
    /// A count passes its limit.
    Count(usize),
    /// A rule of the attributes is broken.
    Rule(usize),
    /// The signer is not there.
    NoSigner,
}

impl From<MessageFault> for Refusal {
    ghost from_gives = { λ fault refusal. refusal ≡ refusal_of fault };

    fn from(fault: MessageFault) -> Refusal {
        match fault {
            MessageFault::Element(fault) => Refusal::Element(fault),
            MessageFault::Field(place) => Refusal::Field(place),
            MessageFault::Count(place) => Refusal::Count(place),
        }
    }
}

/// As `refused 3 place 2 cause 0`.
impl fmt::Display for Refusal {
    ghost output = { λ r. Some (refusal_text r) };

    fn fmt<W: fmt::Write>(&self, f: &mut fmt::Formatter<W>) -> fmt::Result {
        let number = self.number();
        let place = self.place();
        let cause = self.cause();
        write!(f, "refused {number} place {place} cause {cause}")
    }
}
