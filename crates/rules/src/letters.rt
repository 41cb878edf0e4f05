//! The letters of forms.
ghost use Rattle.std.specs.Prelude.{[], ◌∷◌, Some};
ghost use Rattle.rules.specs.Letters.{letter_of};

use crate::kinds::Form;
use std::fmt;

/// Its letter.
impl fmt::Display for Form {
    ghost output = { λ form. Some (letter_of form ∷ []) };

    fn fmt<W: fmt::Write>(&self, f: &mut fmt::Formatter<W>) -> fmt::Result {
        match self {
            Form::B => f.write_str("B"),
            Form::T => f.write_str("T"),
            Form::C => f.write_str("C"),
            Form::X => f.write_str("X"),
            Form::A => f.write_str("A"),
        }
    }
}
