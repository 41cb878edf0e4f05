//! A part of some bytes.
ghost use Rattle.std.specs.Prelude.{◌≡◌};
ghost use Rattle.areas.specs.Cuts.{between};

/// The bytes from one place up to another, as far as there are any.
pub fn cut(bytes: &[u8], from: usize, to: usize) -> &[u8]
    ensures { result.now ≡ between bytes.now from to }
{
    let end = to.min(bytes.len());
    if from < end { &bytes[from..end] } else { &[] }
}
