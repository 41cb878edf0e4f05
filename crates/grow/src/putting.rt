//! A gap in a file, and a header written into one.
ghost use Rattle.std.specs.Prelude.{◌≡◌, ◌+◌, ◌≤◌, length};
ghost use Rattle.areas.specs.Overlays.{overlay};
ghost use Rattle.der.specs.Trees.{header_bytes};
ghost use Rattle.der.specs.Headers.{header_size_of};
ghost use Rattle.grow.specs.Splices.{Parted};
ghost use Rattle.grow.specs.Changes.{SameBuffer};

use crate::file::GrowingFile;
use areas::put;

impl GrowingFile<'_> {
    /// Moves what stands from `at` to the end of the file `size` bytes to the right, so that the file is longer by so many.
    pub(crate) fn open_gap(&mut self, at: usize, size: usize)
        requires within { at ≤ self.old.end }
        requires room { self.old.end + size ≤ length self.old.buffer.now }
        ensures same_buffer { SameBuffer self.old self.new }
        ensures end { self.new.end ≡ self.old.end + size }
        ensures parted { Parted self.old.buffer.now self.new.buffer.now self.old.end at size }
    {
        if size > 0 {
            self.buffer.copy_within(at..self.end, at + size);
            self.end += size;
        }
    }
}

/// Writes the header of an element with `size` bytes of contents over the bytes from `at` on; answers where it ends.
// By hand, since the tag may be any byte: `der::HeaderBytes` makes no header of one that would go on in further bytes.
pub(crate) fn put_header(area: &mut [u8], at: usize, tag: u8, size: usize) -> usize
    requires short { size ≤ 65535 }
    requires room { at + header_size_of size ≤ length area.old }
    ensures ends { result ≡ at + header_size_of size }
    ensures area { area.new ≡ overlay at (header_bytes tag size) area.old }
{
    match size {
        0..=127 => put(area, at, &[tag, size as u8]),
        128..=255 => put(area, at, &[tag, 0x81, size as u8]),
        _ => put(
            area,
            at,
            &[tag, 0x82, (size / 256) as u8, (size % 256) as u8],
        ),
    }
}
