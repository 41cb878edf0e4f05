//! A reader over borrowed bytes.

/// Stands on bytes at an offset; the elements that it hands out end at `end`.
#[derive(Clone, Copy)]
pub struct Reader<'a> {
    pub bytes: &'a [u8],
    pub at: usize,
    pub end: usize,
}
