//! Pieces put into a file.
ghost use Rattle.std.specs.Prelude.{◌≡◌, ℕ, List, ◌++◌, length};
ghost use Rattle.areas.specs.Pieces.{joined};
ghost use Rattle.der.specs.Trees.{framed};
ghost use Rattle.grow.specs.Frames.{Frame, plug};
ghost use Rattle.grow.specs.Changes.{IsPath, Encloses, Spot, Wrapped, Fits, Changed, SameBuffer, file_in};

use crate::file::GrowingFile;
use crate::full::Full;
use crate::headers::contents_end;
use crate::measuring::{joined_length, measure_append, measure_field};
use crate::putting::put_header;
use areas::{put, put_all};

impl GrowingFile<'_> {
    /// Puts the pieces, joined, behind the contents of the innermost element at `path`, the offsets of tags, the innermost first.
    /// Answers the new length of the file.
    /// Refuses a new file of more than 65,535 bytes, and then one that passes the buffer, which then is as it was.
    pub fn append(&mut self, path: &[usize], pieces: &[&[u8]]) -> Result<usize, Full>
        requires path { IsPath (file_in self.old) path.now }
        ensures same_buffer { SameBuffer self.old self.new }
        ensures changed { (fs : List Frame) (body : List ℕ) → Encloses (file_in self.old) path.now fs body
            → Changed self.old self.new result (plug fs (body ++ joined pieces.now)) }
    {
        let size = joined_length(pieces)?;
        measure_append(self.bytes(), self.room(), path, size)?;
        let at = contents_end(self.bytes(), path);
        self.insert(path, at, &[], pieces, size);
        Ok(self.end)
    }

    /// Makes an element of the pieces, joined, at `at` between two elements inside the innermost element at `path`.
    /// Answers and refuses as `append` does.
    pub fn insert_field(
        &mut self,
        path: &[usize],
        at: usize,
        tag: u8,
        pieces: &[&[u8]],
    ) -> Result<usize, Full>
        requires spot { (fs : List Frame) × (pre : List ℕ) × (post : List ℕ) × Spot (file_in self.old) path.now at fs pre post }
        ensures same_buffer { SameBuffer self.old self.new }
        ensures changed { (fs : List Frame) (pre post : List ℕ) → Spot (file_in self.old) path.now at fs pre post
            → Changed self.old self.new result (plug fs (pre ++ (framed tag (joined pieces.now) ++ post))) }
    {
        let size = joined_length(pieces)?;
        measure_field(self.bytes(), self.room(), path, size)?;
        let mut header = [0; 4];
        let head = put_header(&mut header, 0, tag, size);
        self.insert(path, at, &header[..head], pieces, head + size);
        Ok(self.end)
    }

    /// Puts a header and the pieces, joined, which have `size` bytes in all, at `at` inside the innermost element at `path`.
    fn insert(&mut self, path: &[usize], at: usize, header: &[u8], pieces: &[&[u8]], size: usize)
        requires size { size ≡ length (header.now ++ joined pieces.now) }
        requires spot { (fs : List Frame) × (pre : List ℕ) × (post : List ℕ) × Spot (file_in self.old) path.now at fs pre post
            × Fits self.old (plug fs (pre ++ ((header.now ++ joined pieces.now) ++ post))) }
        ensures same_buffer { SameBuffer self.old self.new }
        ensures wrapped { (fs : List Frame) (pre post : List ℕ) → Spot (file_in self.old) path.now at fs pre post
            → Wrapped self.old self.new (plug fs (pre ++ ((header.now ++ joined pieces.now) ++ post))) }
    {
        self.open_gap(at, size);
        let behind = put(self.buffer, at, header);
        put_all(self.buffer, behind, pieces);
        self.rewrap(path, size);
    }
}
