//! What a token tells.
ghost use Rattle.std.specs.Prelude.{◌≡◌, MatchResult};
ghost use Rattle.token.specs.Told.{ToldAt, Untold};
ghost use Rattle.token.specs.Records.{imprint_in, version_of, info_in, info_of};

use crate::located::{ImprintParts, InfoParts};
use der::{Reader, Span, walk_first};
use fields::{Inside, enter, expect, finish, read_number, read_single};
use index::read_algorithm;
use message::MessageFault;

/// How many levels the contents of an octet string have of their own.
const LEVELS: u8 = 32;

/// The algorithm and the digest in the imprint field.
fn read_imprint(reader: &Reader, field: Span) -> Result<ImprintParts, usize>
    ensures { result ≡ imprint_in reader.now.bytes.now field }
{
    let mut inside = enter(reader, field);
    let algorithm = read_algorithm(&mut inside)?;
    let imprint = expect(&mut inside, 0x04)?;
    finish(&inside)?;
    Ok(ImprintParts {
        field,
        algorithm,
        imprint,
    })
}

/// The version, which stands at `place`.
fn check_version(place: usize, version: u8) -> Result<(), usize>
    ensures { result ≡ version_of place version }
{
    if version == 1 { Ok(()) } else { Err(place) }
}

/// The fields up to the imprint.
#[derive(Clone, Copy)]
struct InfoFields;

impl Inside for InfoFields {
    type Parts = InfoParts;

    ghost outcome = { λ _. info_in };

    fn read(&self, reader: &Reader, whole: Span) -> Result<InfoParts, usize> {
        let mut inside = enter(reader, whole);
        let version = read_number(&mut inside)?;
        check_version(whole.body, version.value)?;
        let policy = expect(&mut inside, 0x06)?;
        let field = expect(&mut inside, 0x30)?;
        let imprint = read_imprint(&inside, field)?;
        Ok(InfoParts {
            whole,
            policy,
            imprint,
        })
    }
}

/// What is told from the reader's offset to its end, or the place of the first break.
fn read_parts(reader: Reader) -> Result<InfoParts, usize>
    ensures { result ≡ info_of reader.entry.bytes.now reader.entry.at reader.entry.end }
{
    read_single(reader, 0x30, &InfoFields)
}

// Walked and read as `message::read_formed` does: a function for both would take the reading with its clauses, and be longer.

/// What the contents of a token's octet string tell, walked from level 1; or what is at fault, from their start.
pub fn read_info(contents: &[u8]) -> Result<InfoParts, MessageFault>
    ensures { MatchResult result (ToldAt contents.now) (Untold contents.now) }
{
    walk_first(contents, LEVELS)?;
    read_parts(Reader::new(contents)).map_err(MessageFault::Field)
}
