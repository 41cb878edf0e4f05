//! The number, place and cause of a refusal.
ghost use Rattle.std.specs.Prelude.{◌≡◌};
ghost use Rattle.archive.specs.Numbers.{number_of, place_of, cause_of};

use crate::refusal::Refusal;

impl Refusal {
    /// The number by which the refusal is told.
    pub fn number(self) -> u8
        ensures { result ≡ number_of self }
    {
        // A match: cases carry values, so no cast gives the number.
        match self {
            Refusal::Length => 1,
            Refusal::Element(_) => 2,
            Refusal::Field(_) => 3,
            Refusal::Count(_) => 4,
            Refusal::Rule(_) => 5,
            Refusal::NoSigner => 6,
        }
    }

    /// The offset that the refusal is about; 0 where there is none.
    pub fn place(self) -> usize
        ensures { result ≡ place_of self }
    {
        match self {
            Refusal::Length | Refusal::NoSigner => 0,
            Refusal::Element(fault) => fault.place,
            Refusal::Field(place) => place,
            Refusal::Count(place) => place,
            Refusal::Rule(place) => place,
        }
    }

    /// The number of the element's cause; 0 where there is none.
    pub fn cause(self) -> u8
        ensures { result ≡ cause_of self }
    {
        match self {
            Refusal::Element(fault) => fault.cause.number(),
            // The definition names each case: a new one is not passed over.
            _ => 0,
        }
    }
}
