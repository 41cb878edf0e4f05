//! What the definitions give together.
ghost use Rattle.matching.specs.Laws.{NoneUnmatched, FoundIsFirst, InsideTells, AllSurveyed};

/// No entry is unmatched exactly when each has its element, and one that is found is the first;
/// an element is inside exactly when some entry is its digest, and each element has its row.
pub fn laws_hold() -> bool
    ensures none_unmatched { NoneUnmatched }
    ensures found_is_first { FoundIsFirst }
    ensures inside_tells { InsideTells }
    ensures all_surveyed { AllSurveyed }
{
    true
}
