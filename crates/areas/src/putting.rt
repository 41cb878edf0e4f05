//! Bytes written over those of an area.
ghost use Rattle.std.specs.Prelude.{◌≡◌, ◌-◌, ◌^◌, min, length};
ghost use Rattle.areas.specs.Overlays.{Overlaid};
ghost use Rattle.areas.specs.Pieces.{joined};

/// Writes the bytes over those of the area from `at` on; answers where they end.
/// Where they do not fit it writes nothing, and answers `at`.
pub fn put(area: &mut [u8], at: usize, bytes: &[u8]) -> usize
    ensures { Overlaid area.old area.new at bytes.now result }
{
    let end = at.saturating_add(bytes.len());
    if end > area.len() {
        return at;
    }
    area[at..end].copy_from_slice(bytes);
    end
}

/// How many bytes the pieces have together; the largest number stands for more.
fn total_length(pieces: &[&[u8]]) -> usize
    ensures { result ≡ min (length (joined pieces.now)) (2 ^ 64 - 1) }
{
    let mut sum: usize = 0;
    for piece in pieces {
        sum = sum.saturating_add(piece.len());
    }
    sum
}

/// Writes the pieces, joined in their order, over the bytes of the area from `at` on; answers where they end.
/// Where they do not all fit it writes nothing, and answers `at`.
pub fn put_all(area: &mut [u8], at: usize, pieces: &[&[u8]]) -> usize
    ensures { Overlaid area.old area.new at (joined pieces.now) result }
{
    if at.saturating_add(total_length(pieces)) > area.len() {
        return at;
    }
    let mut end = at;
    for piece in pieces {
        end = put(area, end, piece);
    }
    end
}
