//! Where the parts of an index lie: what a reading finds.
use der::Span;
use fields::Entries;

/// An algorithm: its identifier, and whether the empty parameters 05 00 follow it.
#[derive(Clone, Copy)]
pub struct AlgorithmParts {
    pub whole: Span,
    pub name: Span,
    pub null: bool,
}

/// An index: its algorithm if it names one, and its lists of entries.
#[derive(Clone, Copy)]
pub struct IndexParts {
    pub whole: Span,
    pub algorithm: Option<AlgorithmParts>,
    pub certificates: Entries,
    pub revocations: Entries,
    pub attributes: Entries,
}
