//! Why a file has no outline.
ghost use Rattle.std.specs.Prelude.{Some};
ghost use Rattle.listing.specs.Words.{refusal_text};

use der::Fault;
use std::fmt;

/// The first reason, in this order, to refuse a file.
#[derive(Clone, Copy, Debug, PartialEq, Eq)]
pub enum Refusal {
    /// It is empty, or longer than 65,535 bytes.
    Length,
    /// An element breaks the rules.
    Element(Fault),
    /// Bytes follow its one element, from this offset on.
    Surplus(usize),
}

/// As `refused 2 place 17 cause 5`.
impl fmt::Display for Refusal {
    ghost output = { λ r. Some (refusal_text r) };

    fn fmt<W: fmt::Write>(&self, f: &mut fmt::Formatter<W>) -> fmt::Result {
        // `archive` prints its own refusals so; the two have no crate in common but `der`, which prints nothing.
        match *self {
            Refusal::Length => f.write_str("refused 1 place 0 cause 0"),
            Refusal::Element(Fault { place, cause }) => {
                let cause = cause.number();
                write!(f, "refused 2 place {place} cause {cause}")
            }
            Refusal::Surplus(place) => write!(f, "refused 3 place {place} cause 0"),
        }
    }
}
