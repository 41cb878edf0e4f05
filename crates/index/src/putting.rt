//! Bytes, headers and digests written one behind another into an area.
ghost use Rattle.std.specs.Prelude.{◌≡◌, ℕ, ◌+◌, ◌≤◌, length};
ghost use Rattle.der.specs.Headers.{Sayable, header_size_of};
ghost use Rattle.der.specs.Trees.{header_bytes, encode};
ghost use Rattle.digest.specs.Took.{most};
ghost use Rattle.stamp_model.specs.Indexes.{entry_tree};
ghost use Rattle.index.specs.Puts.{Put};
ghost use Rattle.index.specs.Sizes.{framed_size_of};

use der::HeaderBytes;
use digest::digesting::digest_bytes;
use digest::interface::Digest;

/// Puts the bytes behind the first `at`; answers where they end.
pub(crate) fn put(area: &mut [u8], at: usize, bytes: &[u8]) -> usize
    requires { at + length bytes.now ≤ length area.old }
    ensures { Put area.old area.new at bytes.now result }
{
    areas::put(area, at, bytes)
}

/// Puts the header of an element with so many bytes of contents.
pub(crate) fn put_header(area: &mut [u8], at: usize, tag: u8, size: usize) -> usize
    requires { (Sayable tag size) × (at + header_size_of size ≤ length area.old) }
    ensures { Put area.old area.new at (header_bytes tag size) result }
{
    let Some(header) = HeaderBytes::new(tag, size) else {
        return at;
    };
    put(area, at, header.as_slice())
}

/// Puts the digest of the bytes behind the first `at`; answers where it ends. The bytes are not more than a digest takes.
pub fn put_digest<G: Digest>(area: &mut [u8], at: usize, bytes: &[u8]) -> usize
    requires { at + G.size ≤ length area.old }
    ensures ends { result ≡ at + G.size }
    ensures digest { length bytes.now ≤ most → Put area.old area.new at (G.value bytes.now) result }
{
    let end = at + G::width();
    let _ = digest_bytes::<G>(bytes, &mut area[at..end]);
    end
}

/// Puts the entry of an element: its digest as an octet string.
pub(crate) fn put_entry<G: Digest>(area: &mut [u8], at: usize, element: &[u8]) -> usize
    requires { at + framed_size_of G.size ≤ length area.old }
    ensures ends { result ≡ at + framed_size_of G.size }
    ensures entry { length element.now ≤ most → Put area.old area.new at (encode (entry_tree (G.value element.now))) result }
{
    let body = put_header(area, at, 0x04, G::width());
    put_digest::<G>(area, body, element)
}
