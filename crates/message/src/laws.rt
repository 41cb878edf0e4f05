//! What the definitions give together.
ghost use Rattle.message.specs.Laws.{OneFormed, NeverBoth};

/// Bytes are one message of a form at most, and never both such a message and at fault.
pub fn laws_hold() -> bool
    ensures one_formed { OneFormed }
    ensures never_both { NeverBoth }
{
    true
}
