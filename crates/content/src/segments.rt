//! Segments: elements back to back, whose contents are read as if they were joined.
ghost use Rattle.std.specs.Prelude.{◌≡◌, length};
ghost use Rattle.digest.specs.Read.{Read};
ghost use Rattle.content.specs.Segments.{joined_of};

use der::Reader;
use digest::cutting::copy_part;

/// How many bytes the contents of the elements have together.
pub(crate) fn count_bytes(segments: Reader) -> usize
    ensures { result ≡ length (joined_of segments.entry) }
{
    let mut reader = segments;
    let mut count = 0;
    while let Ok(segment) = reader.next() {
        count += segment.contents().len();
    }
    count
}

/// The joined contents from `place` on go to the front of the block, as many as both allow. Answers how many.
pub(crate) fn read_segments(segments: Reader, place: usize, block: &mut [u8]) -> usize
    ensures { Read (joined_of segments.entry) place block.old block.new result }
{
    let mut reader = segments;
    let mut passed = 0;
    let mut filled = 0;
    // The reader hands the segments out; the loop stops as soon as the block is full, which may be before any is read.
    while filled < block.len() {
        let Ok(segment) = reader.next() else {
            return filled;
        };
        let contents = segment.contents();
        filled += copy_part(contents, place.saturating_sub(passed), &mut block[filled..]);
        passed += contents.len();
    }
    filled
}
