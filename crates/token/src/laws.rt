//! What the definitions give together.
ghost use Rattle.token.specs.Laws.{NeverUntold, NeverBoth};

/// What tells something, and what is a token, is not at fault.
pub fn laws_hold() -> bool
    ensures never_untold { NeverUntold }
    ensures never_both { NeverBoth }
{
    true
}
