//! Growing files, made and looked at.
ghost use Rattle.std.specs.Prelude.{◌≡◌, ◌≤◌, length};
ghost use Rattle.grow.specs.Changes.{file_in};

use crate::file::GrowingFile;

impl<'a> GrowingFile<'a> {
    /// The file in the bytes of the buffer up to `end`.
    pub fn new(buffer: &'a mut [u8], end: usize) -> GrowingFile<'a>
        requires { end ≤ length buffer.old }
        ensures same_reference { result.buffer.ghost_name ≡ buffer.entry.ghost_name }
        ensures buffer { result.buffer.now ≡ buffer.old }
        ensures end { result.end ≡ end }
    {
        GrowingFile { buffer, end }
    }

    /// The bytes of the file.
    pub fn bytes(&self) -> &[u8]
        ensures { result.now ≡ file_in self.now }
    {
        &self.buffer[..self.end]
    }

    /// How many bytes the file may have in its buffer.
    pub fn room(&self) -> usize
        ensures { result ≡ length self.now.buffer.now }
    {
        self.buffer.len()
    }
}
