//! Why bytes are no message of their form.
ghost use Rattle.std.specs.Prelude.{◌≡◌};
ghost use Rattle.message.specs.declared.fault.MessageFault.TheVariants.{Element};

use der::Fault;

/// The first of these that applies.
#[derive(Clone, Copy, Debug, PartialEq, Eq)]
pub enum MessageFault {
    /// An element is at fault.
    Element(Fault),
    /// A field is missing, wrong or surplus: its place.
    Field(usize),
    /// A count passes its limit: the place of the first element too many.
    Count(usize),
}

impl From<Fault> for MessageFault {
    ghost from_gives = { λ fault e. e ≡ Element fault };

    fn from(fault: Fault) -> MessageFault {
        MessageFault::Element(fault)
    }
}
