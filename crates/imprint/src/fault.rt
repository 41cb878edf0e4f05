//! Why no content is read.

/// The file and the source that is given do not suit each other.
#[derive(Clone, Copy, Debug, PartialEq, Eq)]
pub enum ContentFault {
    /// The file is detached, and no source is given.
    NoContent,
    /// The file has content, and a source is given too.
    TwoContents,
    /// What lies where the content is due has more than 8,388,608 bytes; no file's content has.
    LongContent,
}
