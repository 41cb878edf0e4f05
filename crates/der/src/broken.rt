//! Why bytes are not exactly one element.
ghost use Rattle.std.specs.Prelude.{◌≡◌};
ghost use Rattle.der.specs.declared.broken.Broken.TheVariants.{Faulty};

use crate::fault::Fault;

/// What is wrong first, in reading order.
#[derive(Clone, Copy, Debug, PartialEq, Eq)]
pub enum Broken {
    /// The first element is at fault.
    Faulty(Fault),
    /// Bytes stand behind the one element, from this offset on; they are not walked.
    Surplus(usize),
}

impl From<Fault> for Broken {
    ghost from_gives = { λ fault broken. broken ≡ Faulty fault };

    fn from(fault: Fault) -> Broken {
        Broken::Faulty(fault)
    }
}
