//! What stands inside an element.
ghost use Rattle.std.specs.Prelude.{◌≡◌, ℕ, List, Result};
ghost use Rattle.der.specs.declared.span.Span.{Span};

use der::{Reader, Span};

/// The fields of an element.
pub trait Inside {
    type Parts: Copy;

    /// How they are read.
    ghost outcome: { Self → List ℕ → Span → Result Self.Parts ℕ };

    fn read(&self, reader: &Reader, whole: Span) -> Result<Self::Parts, usize>
        ensures { result ≡ outcome self.now reader.now.bytes.now whole };
}
