//! The headers around contents that grow.
ghost use Rattle.std.specs.Prelude.{◌≡◌, ℕ, ◌+◌, ◌-◌, ◌≤◌, true, List, length, drop, is_ok, Ok};
ghost use Rattle.der.specs.Head.{header_of};
ghost use Rattle.der.specs.Headers.{header_size_of};
ghost use Rattle.der.specs.Trees.{header_bytes};
ghost use Rattle.grow.specs.Frames.{Frame, start, plug};
ghost use Rattle.grow.specs.Splices.{Spliced};
ghost use Rattle.grow.specs.Changes.{IsPath, Encloses, Stale, Fits, Wrapped, SameBuffer, file_in};

use crate::file::GrowingFile;
use crate::putting::put_header;
use der::{Header, header_size, read_header};

/// The header at `place` of the file.
pub(crate) fn header_at(file: &[u8], place: usize) -> Header
    requires within { place ≤ length file.now }
    requires header { is_ok (header_of (drop place file.now)) ≡ true }
    ensures { header_of (drop place file.now) ≡ Ok result }
{
    match read_header(&file[place..]) {
        Ok(header) => header,
        Err(_) => unreachable(),
    }
}

/// Where the contents of the innermost element at `path` end; the end of the file where there is none.
pub(crate) fn contents_end(file: &[u8], path: &[usize]) -> usize
    requires short { length file.now ≤ 65535 }
    requires path { IsPath file.now path.now }
    ensures { (fs : List Frame) (body : List ℕ) → Encloses file.now path.now fs body → result ≡ start fs (length body) + length body }
{
    match path {
        [] => file.len(),
        [place, ..] => {
            let header = header_at(file, *place);
            *place + (header.head + header.size)
        }
    }
}

impl GrowingFile<'_> {
    /// Writes the header at `at` anew, for `size` bytes of contents; answers by how many bytes it is longer.
    fn rewrite_header(&mut self, at: usize, header: Header, size: usize) -> usize
        requires within { at + header.head ≤ self.old.end }
        requires grows { header.head ≤ header_size_of size }
        requires short { size ≤ 65535 }
        requires room { self.old.end + (header_size_of size - header.head) ≤ length self.old.buffer.now }
        ensures same_buffer { SameBuffer self.old self.new }
        ensures more { result ≡ header_size_of size - header.head }
        ensures end { self.new.end ≡ self.old.end + result }
        ensures bytes { Spliced self.old.buffer.now self.new.buffer.now self.old.end at header.head (header_bytes header.tag size) }
    {
        let more = header_size(size) - header.head;
        self.open_gap(at + header.head, more);
        put_header(self.buffer, at, header.tag, size);
        more
    }

    /// Writes the headers at `path` anew, whose innermost contents have grown by `more` bytes.
    pub(crate) fn rewrap(&mut self, path: &[usize], more: usize)
        requires path { (fs : List Frame) × (m : ℕ) × (body : List ℕ) × Stale (file_in self.old) path.now more fs m body × Fits self.old (plug fs body) }
        ensures same_buffer { SameBuffer self.old self.new }
        ensures wrapped { (fs : List Frame) (m : ℕ) (body : List ℕ) → Stale (file_in self.old) path.now more fs m body
            → Wrapped self.old self.new (plug fs body) }
    {
        let mut grow = more;
        for place in path {
            let header = header_at(self.bytes(), *place);
            grow += self.rewrite_header(*place, header, header.size + grow);
        }
    }
}
