//! The header of an element, written.
ghost use Rattle.std.specs.Prelude.{◌≡◌, length, take, MatchOption};
ghost use Rattle.der.specs.Trees.{header_bytes};
ghost use Rattle.der.specs.Headers.{Sayable, header_size_of};

use super::HeaderBytes;

/// How many bytes the header of an element has whose contents have `size` bytes.
pub fn header_size(size: usize) -> usize
    ensures { result ≡ header_size_of size }
{
    match size {
        0..=127 => 2,
        128..=255 => 3,
        _ => 4,
    }
}

impl HeaderBytes {
    /// The header of an element with this tag and so many bytes of contents; none where no header can say it.
    pub fn new(tag: u8, size: usize) -> Option<HeaderBytes>
        ensures { MatchOption result (Sayable tag size → ⊥) (λ h. Sayable tag size × (take h.count h.bytes ≡ header_bytes tag size)) }
    {
        if tag & 0x1f == 0x1f || size > 0xffff {
            return None;
        }
        let header = if size < 128 {
            HeaderBytes {
                bytes: [tag, size as u8, 0, 0],
                count: 2,
            }
        } else if size < 256 {
            HeaderBytes {
                bytes: [tag, 0x81, size as u8, 0],
                count: 3,
            }
        } else {
            HeaderBytes {
                bytes: [tag, 0x82, (size / 256) as u8, (size % 256) as u8],
                count: 4,
            }
        };
        Some(header)
    }

    /// The bytes.
    pub fn as_slice(&self) -> &[u8]
        ensures { result.now ≡ take self.now.count self.now.bytes }
    {
        &self.bytes[0..self.count]
    }
}
