//! A header of which the contents are to follow.
use der::HeaderBytes;

/// A header, and how many bytes its element has in all.
#[derive(Clone, Copy)]
pub(crate) struct Framed {
    pub(crate) header: HeaderBytes,
    pub(crate) total: usize,
}
