//! Kinds of entries that lists of several messages have.
ghost use Rattle.std.specs.Prelude.{◌≡◌};
ghost use Rattle.fields.specs.Reads.{Reads, span_stop, any_of, expect_of};

use crate::elements::{expect, read_any};
use crate::entries::Entry;
use der::{Reader, Span};

/// Any elements.
pub struct Anything;

impl Entry for Anything {
    ghost outcome = { any_of };

    fn read(reader: &mut Reader) -> Result<Span, usize> {
        read_any(reader)
    }
}

/// Octet strings.
pub struct Octets;

impl Entry for Octets {
    ghost outcome = { expect_of 4 };

    fn read(reader: &mut Reader) -> Result<Span, usize> {
        expect(reader, 0x04)
    }
}
