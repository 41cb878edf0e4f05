//! What stays true of a file when its lists grow, as a contract.
ghost use Rattle.append.specs.Laws.{FormKept, LimitsKept, RulesKept};

/// A file of the form that keeps the limits and the rules of attributes still does with elements appended that may stand there.
pub fn laws_hold() -> bool
    ensures form { FormKept }
    ensures limits { LimitsKept }
    ensures rules { RulesKept }
{
    true
}
