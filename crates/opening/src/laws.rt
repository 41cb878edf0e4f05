//! What the definitions give together.
ghost use Rattle.archive.specs.Laws.{OneAccepted};
ghost use Rattle.opening.specs.Laws.{Exactly};

/// An accepted file is one, and what is answered of it is told by it.
pub fn laws_hold() -> bool
    ensures exactly { Exactly }
    ensures one_accepted { OneAccepted }
{
    true
}
