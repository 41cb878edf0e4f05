//! What the definitions give together.
ghost use Rattle.index.specs.Laws.{NoBreakIsAlgorithm, AlgorithmHasNoBreak, NoBreakIsIndex, IndexHasNoBreak, NoneTooMany, WrittenIsWell, TreesTell};

/// An element has no break exactly when it is an algorithm, or an index;
/// no entry is one too many exactly when every list keeps its limit; what is written is well formed;
/// and the elements of a file are the bytes of its trees.
pub fn laws_hold() -> bool
    ensures no_break_is_algorithm { NoBreakIsAlgorithm }
    ensures algorithm_has_no_break { AlgorithmHasNoBreak }
    ensures no_break_is_index { NoBreakIsIndex }
    ensures index_has_no_break { IndexHasNoBreak }
    ensures none_too_many { NoneTooMany }
    ensures written_is_well { WrittenIsWell }
    ensures trees_tell { TreesTell }
{
    true
}
