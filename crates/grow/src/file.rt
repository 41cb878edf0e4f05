//! A file that grows.
ghost use Rattle.std.specs.Prelude.{◌≤◌, length};

/// The first bytes of a buffer that a caller lends, up to `end`. The file grows over those behind.
#[derive(Drop)]
pub struct GrowingFile<'a> {
    pub(crate) buffer: &'a mut [u8],
    pub(crate) end: usize,
    ghost within: { end ≤ length buffer.now },
}
