//! The number of each refusal.
ghost use Rattle.std.specs.Prelude.{◌≡◌};
ghost use Rattle.digest.specs.Numbers.{number_of};

use crate::refusal::Refusal;

impl Refusal {
    /// The number by which the refusal is told.
    pub fn number(self) -> u8
        ensures { result ≡ number_of self }
    {
        self as u8
    }
}
