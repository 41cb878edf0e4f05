//! What the definitions give together, as contracts.
ghost use Rattle.content.specs.Laws.{SegmentsJoin, ContentLies};

/// Segments that stand in a file are joined, and the content of a file lies where its message says.
pub fn laws_hold() -> bool
    ensures segments { SegmentsJoin }
    ensures content { ContentLies }
{
    true
}
