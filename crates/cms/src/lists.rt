//! The lists of a message, and what their entries are.
ghost use Rattle.std.specs.Prelude.{◌≡◌};
ghost use Rattle.fields.specs.Reads.{Reads, span_stop, any_of, allowed_of, expect_of};
ghost use Rattle.cms.specs.Records.{certificate_tags, revocation_tags};

use der::{Reader, Span};
use fields::{Entry, TagSet, read_in_set};

/// Certificates of each kind that a message may hold.
pub(crate) struct Certificates;

impl TagSet for Certificates {
    ghost tags = { λ _. certificate_tags };

    fn contains(&self, tag: u8) -> bool {
        matches!(tag, 0x30 | 0xa0 | 0xa1 | 0xa2 | 0xa3)
    }
}

impl Entry for Certificates {
    ghost outcome = { allowed_of certificate_tags };

    fn read(reader: &mut Reader) -> Result<Span, usize> {
        read_in_set(reader, &Certificates)
    }
}

/// Revocation lists, and other revocation information.
pub(crate) struct Revocations;

impl TagSet for Revocations {
    ghost tags = { λ _. revocation_tags };

    fn contains(&self, tag: u8) -> bool {
        matches!(tag, 0x30 | 0xa1)
    }
}

impl Entry for Revocations {
    ghost outcome = { allowed_of revocation_tags };

    fn read(reader: &mut Reader) -> Result<Span, usize> {
        read_in_set(reader, &Revocations)
    }
}
