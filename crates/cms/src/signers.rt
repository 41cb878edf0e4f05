//! Signers.
ghost use Rattle.std.specs.Prelude.{◌≡◌};
ghost use Rattle.fields.specs.Reads.{Reads, span_stop};
ghost use Rattle.cms.specs.Records.{identifier_tag_of, algorithm_of, signer_of, signer_stop, signer_entry, signers_in};

use crate::attributes::{Attributes, read_unsigned};
use crate::located::Signer;
use crate::settings::SignerCount;
use der::{Reader, Span};
use fields::{Entry, Located, count_some, enter, expect, finish, read_list, read_number};

/// The tag of the identifier that goes with a version, which stands at `place`.
fn identifier_tag(place: usize, version: u8) -> Result<u8, usize>
    ensures { result ≡ identifier_tag_of place version }
{
    match version {
        1 => Ok(0x30),
        3 => Ok(0x80),
        _ => Err(place),
    }
}

/// An algorithm, which begins with an identifier.
fn read_algorithm(reader: &mut Reader) -> Result<Span, usize>
    ensures { Reads algorithm_of span_stop reader.old reader.new result }
{
    let whole = expect(reader, 0x30)?;
    let mut inside = enter(reader, whole);
    expect(&mut inside, 0x06)?;
    Ok(whole)
}

/// A signer: its six fields and its unsigned attributes.
pub fn read_signer(reader: &mut Reader) -> Result<Signer, usize>
    ensures { Reads signer_of signer_stop reader.old reader.new result }
{
    let whole = expect(reader, 0x30)?;
    let mut inside = enter(reader, whole);
    let version = read_number(&mut inside)?;
    let tag = identifier_tag(whole.body, version.value)?;
    let identifier = expect(&mut inside, tag)?;
    let digest = read_algorithm(&mut inside)?;
    let signed = read_list::<Attributes>(&mut inside, 0xa0)?;
    let algorithm = expect(&mut inside, 0x30)?;
    let signature = expect(&mut inside, 0x04)?;
    let unsigned = read_unsigned(&mut inside)?;
    finish(&inside)?;
    Ok(Signer {
        whole,
        version: version.element,
        identifier,
        digest,
        signed,
        algorithm,
        signature,
        unsigned,
    })
}

impl Located for Signer {
    ghost reading = { signer_of };

    ghost stop = { signer_stop };

    fn read(reader: &mut Reader) -> Result<Signer, usize> {
        read_signer(reader)
    }
}

// As `Attributes`: one type for both would need a method for the span in `Located`.
pub(crate) struct Signers;

impl Entry for Signers {
    ghost outcome = { signer_entry };

    fn read(reader: &mut Reader) -> Result<Span, usize> {
        let signer = read_signer(reader)?;
        Ok(signer.whole)
    }
}

/// How many signers the field has, as the setting wants them.
pub(crate) fn count_signers(inside: Reader, wanted: SignerCount) -> Result<usize, usize>
    ensures { result ≡ signers_in wanted inside.entry.bytes.now inside.entry.at inside.entry.end }
{
    let mut reader = inside;
    // As in `read_info`, the setting is data.
    match wanted {
        SignerCount::AtLeastOne => count_some::<Signers>(inside),
        SignerCount::ExactlyOne => {
            Signers::read(&mut reader)?;
            finish(&reader)?;
            Ok(1)
        }
        SignerCount::Nobody => {
            finish(&reader)?;
            Ok(0)
        }
    }
}
