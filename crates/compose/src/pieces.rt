//! The bytes of a composed stamp, piece by piece.
ghost use Rattle.std.specs.Prelude.{◌≡◌, ℕ, ◌<◌, List, length, MatchOption};
ghost use Rattle.areas.specs.Pieces.{joined};
ghost use Rattle.compose.specs.Composed.{stamp_bytes};
ghost use Rattle.compose.specs.Heads.{HeadsAll, identifier_bytes};
ghost use Rattle.compose.specs.Leading.{HeadsFor, composed_of};

use crate::headers::Headers;
use crate::heading::head_all;
use crate::leads::Leads;

/// The most bytes that the contents of an element have.
const MOST: usize = 65_535;

/// The identifier that every message begins with, as an element.
static IDENTIFIER: [u8; 11] = [
    0x06, 0x09, 0x2a, 0x86, 0x48, 0x86, 0xf7, 0x0d, 0x01, 0x07, 0x02,
];

/// The type of a stamp, and that of the attribute that carries an index, as elements.
static STAMP_TYPE: [u8; 8] = [0x06, 0x06, 0x04, 0x00, 0x8d, 0x45, 0x02, 0x04];

static INDEX_TYPE: [u8; 8] = [0x06, 0x06, 0x04, 0x00, 0x8d, 0x45, 0x02, 0x05];

/// The pieces of a stamp in their order; joined they are the stamp.
pub fn pieces_of<'a>(headers: &'a Headers, leads: Leads<'a>, index: &'a [u8]) -> [&'a [u8]; 16]
    ensures { HeadsFor headers.now leads.entry index.now → joined result ≡ composed_of leads.entry index.now }
{
    [
        headers.outer.stamp.as_slice(),
        &STAMP_TYPE,
        headers.outer.values.as_slice(),
        headers.outer.message.as_slice(),
        &IDENTIFIER,
        headers.outer.field.as_slice(),
        headers.outer.data.as_slice(),
        leads.front,
        headers.outer.signers.as_slice(),
        headers.inner.signer.as_slice(),
        leads.six,
        headers.inner.unsigned.as_slice(),
        headers.inner.carrier.as_slice(),
        &INDEX_TYPE,
        headers.inner.set.as_slice(),
        index,
    ]
}

/// The headers of the stamp that a token and an index make; none where the stamp would pass 65,535 bytes.
/// Nothing is written: what they say is exact before the first byte is.
pub fn headers_for(leads: Leads, index: &[u8]) -> Option<Headers>
    ensures { MatchOption result (65535 < length (composed_of leads.entry index.now)) (λ h. HeadsFor h leads.entry index.now) }
{
    let front = leads.front.len();
    let six = leads.six.len();
    if front > MOST || six > MOST {
        return None;
    }
    head_all(front, six, index.len())
}

impl Headers {
    /// How many bytes the stamp has in all.
    pub fn total(&self) -> usize
        ensures { (front six index : List ℕ) → HeadsAll self.now front six index → result ≡ length (stamp_bytes identifier_bytes front six index) }
    {
        self.outer.total
    }
}
