//! Signed messages.
ghost use Rattle.std.specs.Prelude.{◌≡◌, ℕ, ◌≤◌, List, ◌++◌, length, IfOk};
ghost use Rattle.der.specs.Spans.{part};
ghost use Rattle.der.specs.Trees.{Tree, Valid, encode};
ghost use Rattle.cms.specs.Grammar.{first_break};
ghost use Rattle.cms.specs.Places.{message_at};
ghost use Rattle.fields.specs.Reads.{broke};
ghost use Rattle.cms.specs.Records.{version_of, data_in, signed_data_in, message_in, message_of};

use crate::contents::read_info;
use crate::lists::{Certificates, Revocations};
use crate::located::Message;
use crate::settings::Settings;
use crate::signers::count_signers;
use der::{Reader, Span};
use fields::{
    Entries, Inside, enter, expect, expect_identifier, finish, read_maybe_list, read_number,
    read_single,
};

/// The content type of signed data.
const SIGNED_DATA: [u8; 9] = [0x2a, 0x86, 0x48, 0x86, 0xf7, 0x0d, 0x01, 0x07, 0x02];

/// A version of signed data, which stands at `place`.
fn check_version(place: usize, version: u8) -> Result<(), usize>
    ensures { result ≡ version_of place version }
{
    match version {
        1 | 3 | 4 | 5 => Ok(()),
        _ => Err(place),
    }
}

/// The fields of signed data.
#[derive(Clone, Copy)]
struct DataFields {
    settings: Settings,
}

impl Inside for DataFields {
    type Parts = Message;

    ghost outcome = { λ fields. data_in fields.settings };

    fn read(&self, reader: &Reader, whole: Span) -> Result<Message, usize> {
        let mut inside = enter(reader, whole);
        let version = read_number(&mut inside)?;
        check_version(whole.body, version.value)?;
        let digests = expect(&mut inside, 0x31)?;
        let info = read_info(&mut inside, self.settings.content)?;
        let certificates = read_maybe_list::<Certificates>(&mut inside, 0xa0)?;
        let revocations = read_maybe_list::<Revocations>(&mut inside, 0xa1)?;
        let field = expect(&mut inside, 0x31)?;
        let count = count_signers(enter(&inside, field), self.settings.signers)?;
        finish(&inside)?;
        Ok(Message {
            whole,
            version: version.element,
            digests,
            info,
            certificates,
            revocations,
            signers: Entries { field, count },
        })
    }
}

/// The signed data in its field.
fn read_signed_data(reader: &Reader, field: Span, settings: Settings) -> Result<Message, usize>
    ensures { result ≡ signed_data_in settings reader.now.bytes.now field }
{
    read_single(enter(reader, field), 0x30, &DataFields { settings })
}

/// The fields of a message.
#[derive(Clone, Copy)]
struct MessageFields {
    settings: Settings,
}

impl Inside for MessageFields {
    type Parts = Message;

    ghost outcome = { λ fields. message_in fields.settings };

    fn read(&self, reader: &Reader, whole: Span) -> Result<Message, usize> {
        let mut inside = enter(reader, whole);
        expect_identifier(&mut inside, &SIGNED_DATA)?;
        let field = expect(&mut inside, 0xa0)?;
        let message = read_signed_data(&inside, field, self.settings)?;
        finish(&inside)?;
        Ok(message)
    }
}

/// The message that stands from the reader's offset to its end, or the place of the first break.
fn read_parts(reader: Reader, settings: Settings) -> Result<Message, usize>
    ensures { result ≡ message_of settings reader.entry.bytes.now reader.entry.at reader.entry.end }
{
    read_single(reader, 0x30, &MessageFields { settings })
}

/// Where the parts lie of the message that stands from the reader's offset to its end,
/// or the place of the first field that is missing, wrong or surplus.
pub fn read_message(reader: Reader, settings: Settings) -> Result<Message, usize>
    ensures computed { result ≡ message_of settings reader.entry.bytes.now reader.entry.at reader.entry.end }
    ensures meaning { (t : Tree) (surplus : List ℕ) (levels : ℕ) → Valid t levels → reader.entry.end ≤ length reader.entry.bytes.now
        → encode t ++ surplus ≡ part reader.entry.bytes.now reader.entry.at reader.entry.end
        → broke result ≡ first_break settings reader.entry.at t surplus }
    ensures places { (t : Tree) (surplus : List ℕ) (levels : ℕ) → Valid t levels → reader.entry.end ≤ length reader.entry.bytes.now
        → encode t ++ surplus ≡ part reader.entry.bytes.now reader.entry.at reader.entry.end
        → IfOk result (λ m. m ≡ message_at reader.entry.at t) }
{
    read_parts(reader, settings)
}
