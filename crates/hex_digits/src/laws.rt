//! What the definitions give together, as contracts.
ghost use Rattle.hex_digits.specs.Laws.{WrittenIsRead, ReadWasWritten};

/// Reading digits is the inverse of writing them.
pub fn laws_hold() -> bool
    ensures read { WrittenIsRead }
    ensures written { ReadWasWritten }
{
    true
}
