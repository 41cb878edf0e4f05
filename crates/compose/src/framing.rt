//! Headers around contents of which only the length is known.
ghost use Rattle.std.specs.Prelude.{◌<◌, MatchOption};
ghost use Rattle.der.specs.Trees.{OneByteTag};
ghost use Rattle.compose.specs.Framing.{Framing};

use crate::frame::Framed;
use der::{HeaderBytes, header_size};

/// The header of an element with so many bytes of contents; none where they are more than 65,535.
pub(crate) fn frame(tag: u8, size: usize) -> Option<Framed>
    requires { OneByteTag tag }
    ensures { MatchOption result (65535 < size) (λ h. Framing h tag size) }
{
    let header = HeaderBytes::new(tag, size)?;
    Some(Framed {
        header,
        total: header_size(size) + size,
    })
}
