//! The number of each list.
ghost use Rattle.std.specs.Prelude.{◌≡◌};
ghost use Rattle.stamp_model.specs.Numbers.{list_number};

use crate::lists::ListName;

impl ListName {
    /// The number by which a list is told.
    pub fn number(self) -> u8
        ensures { result ≡ list_number self }
    {
        self as u8
    }
}
