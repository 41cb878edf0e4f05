//! Where the parts of a token lie: what a reading finds.
use der::Span;
use index::AlgorithmParts;

/// The imprint field: which digest was stamped, made by which algorithm.
#[derive(Clone, Copy)]
pub struct ImprintParts {
    pub field: Span,
    pub algorithm: AlgorithmParts,
    pub imprint: Span,
}

/// What a token tells, in the contents of its octet string; more may follow the imprint field.
#[derive(Clone, Copy)]
pub struct InfoParts {
    pub whole: Span,
    pub policy: Span,
    pub imprint: ImprintParts,
}
