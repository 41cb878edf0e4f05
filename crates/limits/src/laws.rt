//! What the limits come to.
ghost use Rattle.limits.specs.Laws.{NoneTooMany};

/// Nothing is one too many exactly when every list keeps its limit.
pub fn laws_hold() -> bool
    ensures { NoneTooMany }
{
    true
}
