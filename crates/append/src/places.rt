//! Where the elements around a list begin, and the list itself, told by the record of a file.
ghost use Rattle.std.specs.Prelude.{◌≡◌, ◌<◌, length};
ghost use Rattle.cms.specs.Places.{message_at};
ghost use Rattle.fields.specs.Reads.{behind, entries_stop};
ghost use Rattle.model.specs.Files.{File, file_tree};
ghost use Rattle.append.specs.Listed.{outer_at, offsets, IsPlace};

use crate::list::GrowingList;
use crate::place::{Path, Place};
use cms::Message;
use der::header_size;

impl Path {
    /// The offsets.
    pub(crate) fn as_slice(&self) -> &[usize]
        ensures some { 0 < length result.now }
        ensures offsets { result.now ≡ offsets self.now }
    {
        match self {
            Path::OfMessage(offsets) => offsets,
            Path::OfSigner(offsets) => offsets,
        }
    }
}

/// Where the field begins that holds the signed data alone: one header before it.
fn outer_start(message: &Message) -> usize
    requires { (f : File) × (message.now ≡ message_at 0 (file_tree f)) }
    ensures { (f : File) → message.now ≡ message_at 0 (file_tree f) → result ≡ outer_at f }
{
    let size = message.whole.end - message.whole.start;
    message.whole.start - header_size(size)
}

/// Where the field of the revocation entries stands, or would: behind that of the certificates.
fn revocations_start(message: &Message) -> usize
    ensures { result ≡ behind entries_stop message.now.info.whole.end message.now.certificates }
{
    match message.certificates {
        Some(entries) => entries.field.end,
        None => message.info.whole.end,
    }
}

/// The place of a list of the file that the record tells of.
pub(crate) fn place_of(list: GrowingList, message: &Message) -> Place
    requires { (f : File) × (message.now ≡ message_at 0 (file_tree f)) }
    ensures { (f : File) → message.now ≡ message_at 0 (file_tree f) → IsPlace list.entry message.now f result }
{
    let whole = message.whole.start;
    let outer = outer_start(message);
    match list {
        GrowingList::Certificates => Place {
            path: Path::OfMessage([message.info.whole.end, whole, outer, 0]),
            there: message.certificates.is_some(),
            tag: 0xa0,
        },
        GrowingList::Revocations => Place {
            path: Path::OfMessage([revocations_start(message), whole, outer, 0]),
            there: message.revocations.is_some(),
            tag: 0xa1,
        },
        GrowingList::Attributes(signer) => Place {
            path: Path::OfSigner([
                signer.signature.end,
                signer.whole.start,
                message.signers.field.start,
                whole,
                outer,
                0,
            ]),
            there: signer.unsigned.is_some(),
            tag: 0xa1,
        },
    }
}
