//! The headers of a composed stamp, from inside out.
ghost use Rattle.std.specs.Prelude.{◌≤◌, MatchOption};
ghost use Rattle.compose.specs.Heads.{InnerLong, InnerHeads, OuterLong, OuterHeads, Fitting, TooLong};

use crate::framing::frame;
use crate::headers::{Headers, Inner, Outer};

/// How many bytes the element of a type has, of the stamp and of the index.
const TYPE_SIZE: usize = 8;

/// How many bytes the identifier of a message has, as an element.
const IDENTIFIER_SIZE: usize = 11;

/// The headers of a signer whose six fields have `six` bytes and which carries an index of `index` bytes;
/// none where the contents of one of them would pass 65,535 bytes.
pub(crate) fn head_signer(six: usize, index: usize) -> Option<Inner>
    requires { six ≤ 65535 }
    ensures { MatchOption result (InnerLong six index) (InnerHeads six index) }
{
    let set = frame(0x31, index)?;
    let carrier = frame(0x30, TYPE_SIZE + set.total)?;
    let unsigned = frame(0xa1, carrier.total)?;
    let signer = frame(0x30, six + unsigned.total)?;
    Some(Inner {
        signer: signer.header,
        unsigned: unsigned.header,
        carrier: carrier.header,
        set: set.header,
        total: signer.total,
    })
}

/// The headers around a signer of `signer` bytes, in a message whose identifier and front have so many bytes;
/// none where the contents of one of them would pass 65,535 bytes.
pub(crate) fn head_stamp(identifier: usize, front: usize, signer: usize) -> Option<Outer>
    requires { (identifier ≤ 65535) × (front ≤ 65535) }
    ensures { MatchOption result (OuterLong identifier front signer) (OuterHeads identifier front signer) }
{
    let signers = frame(0x31, signer)?;
    let data = frame(0x30, front + signers.total)?;
    let field = frame(0xa0, data.total)?;
    let message = frame(0x30, identifier + field.total)?;
    let values = frame(0x31, message.total)?;
    let stamp = frame(0x30, TYPE_SIZE + values.total)?;
    Some(Outer {
        stamp: stamp.header,
        values: values.header,
        message: message.header,
        field: field.header,
        data: data.header,
        signers: signers.header,
        total: stamp.total,
    })
}

/// All headers of a stamp, of a token whose front and six fields have so many bytes, and of an index;
/// none where the stamp would pass 65,535 bytes by its contents.
pub(crate) fn head_all(front: usize, six: usize, index: usize) -> Option<Headers>
    requires { (front ≤ 65535) × (six ≤ 65535) }
    ensures { MatchOption result (TooLong front six index) (Fitting front six index) }
{
    let inner = head_signer(six, index)?;
    let outer = head_stamp(IDENTIFIER_SIZE, front, inner.total)?;
    Some(Headers { inner, outer })
}
