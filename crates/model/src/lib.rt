//! Files as their parts: what a signed message means, and how it is written.
#![tactic(auto)]

ghost use Rattle.model.specs.Laws.{NoBreakIsFile, FileHasNoBreak, OneFile};

/// A message has no break exactly when it is a file of its shape, and that file is one.
pub fn laws_hold() -> bool
    ensures no_break_is_file { NoBreakIsFile }
    ensures file_has_no_break { FileHasNoBreak }
    ensures one_file { OneFile }
{
    true
}
