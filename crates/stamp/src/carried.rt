//! The index that a token's signer carries.
ghost use Rattle.std.specs.Prelude.{◌≡◌};
ghost use Rattle.stamp.specs.Records.{value_in, attribute_in, unsigned_in, carried_of};

use der::{Reader, Span};
use fields::{Inside, enter, expect, expect_identifier, finish, read_any, read_single};

/// The type of the attribute that carries an index.
const INDEX: [u8; 6] = [0x04, 0x00, 0x8d, 0x45, 0x02, 0x05];

/// The one value in its set.
fn read_value(reader: &Reader, set: Span) -> Result<Span, usize>
    ensures { result ≡ value_in reader.now.bytes.now set }
{
    let mut inside = enter(reader, set);
    let value = read_any(&mut inside)?;
    finish(&inside)?;
    Ok(value)
}

/// The one value of an attribute of the type of indexes.
#[derive(Clone, Copy)]
struct IndexAttribute;

impl Inside for IndexAttribute {
    type Parts = Span;

    ghost outcome = { λ _. attribute_in };

    fn read(&self, reader: &Reader, whole: Span) -> Result<Span, usize> {
        let mut inside = enter(reader, whole);
        expect_identifier(&mut inside, &INDEX)?;
        let set = expect(&mut inside, 0x31)?;
        let value = read_value(&inside, set)?;
        finish(&inside)?;
        Ok(value)
    }
}

/// The value of the one attribute in the field of unsigned attributes.
#[derive(Clone, Copy)]
struct UnsignedField;

impl Inside for UnsignedField {
    type Parts = Span;

    ghost outcome = { λ _. unsigned_in };

    fn read(&self, reader: &Reader, field: Span) -> Result<Span, usize> {
        read_single(enter(reader, field), 0x30, &IndexAttribute)
    }
}

/// Where the index lies that is carried behind the six fields of a signer: the reader stands there, and ends where the
/// signer ends. Else the place of the first field that is missing, wrong or surplus.
pub(crate) fn read_carried(reader: Reader) -> Result<Span, usize>
    ensures { result ≡ carried_of reader.entry.bytes.now reader.entry.at reader.entry.end }
{
    read_single(reader, 0xa1, &UnsignedField)
}
