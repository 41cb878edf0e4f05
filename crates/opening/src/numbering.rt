//! The number, place and cause of a refusal.
ghost use Rattle.std.specs.Prelude.{◌≡◌};
ghost use Rattle.opening.specs.Numbers.{number_of, place_of, cause_of};

use crate::refusal::Refusal;

impl Refusal {
    /// The number by which the refusal is told.
    pub fn number(self) -> u8
        ensures { result ≡ number_of self }
    {
        // A match: cases carry values, so no cast gives the number.
        match self {
            Refusal::Unread(unread) => unread.number(),
            Refusal::NoList => 7,
            Refusal::AddedElement(_) => 7,
            Refusal::AddedField(_) => 7,
            Refusal::Barred => 7,
            Refusal::Content => 8,
            Refusal::NoStamp => 9,
            Refusal::Malformed => 10,
            Refusal::OtherDigest => 11,
            Refusal::OtherImprint => 12,
            Refusal::NoElement => 13,
            Refusal::Equal => 14,
            Refusal::Room => 15,
        }
    }

    /// The offset that the refusal is about; 0 where there is none.
    pub fn place(self) -> usize
        ensures { result ≡ place_of self }
    {
        match self {
            Refusal::Unread(unread) => unread.place(),
            Refusal::AddedElement(fault) => fault.place,
            Refusal::AddedField(place) => place,
            // The definition names each case: a new one is not passed over.
            _ => 0,
        }
    }

    /// The number of the element's cause; 0 where there is none.
    pub fn cause(self) -> u8
        ensures { result ≡ cause_of self }
    {
        match self {
            Refusal::Unread(unread) => unread.cause(),
            Refusal::AddedElement(fault) => fault.cause.number(),
            // The definition names each case: a new one is not passed over.
            _ => 0,
        }
    }
}
