//! Where a content's bytes lie.

/// The bytes from `from` up to `to`, `to` excluded, of one of two slices.
#[derive(Clone, Copy, Debug, PartialEq, Eq)]
pub enum Part {
    /// In the buffer that holds the file.
    Buffer { from: usize, to: usize },
    /// In the content that is kept beside the file.
    Detached { from: usize, to: usize },
}
