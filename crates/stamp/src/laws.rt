//! What the definitions give together.
ghost use Rattle.stamp.specs.Laws.{NeverMisindexed, NeverBoth, NeverBurdened, OneStamp};

/// An index, a stamp and a token to make one of are not at fault, and bytes are one stamp at most.
pub fn laws_hold() -> bool
    ensures never_misindexed { NeverMisindexed }
    ensures never_both { NeverBoth }
    ensures never_burdened { NeverBurdened }
    ensures one_stamp { OneStamp }
{
    true
}
