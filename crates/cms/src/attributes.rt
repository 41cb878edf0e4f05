//! Attributes.
ghost use Rattle.fields.specs.Reads.{Reads, ReadsMaybe, entries_stop};
ghost use Rattle.cms.specs.Records.{attribute_of, attribute_stop, attribute_entry, unsigned_of};

use crate::located::Attribute;
use der::{Reader, Span};
use fields::{Anything, Entries, Entry, Located, count_some, enter, expect, finish, read_optional};

/// An attribute: its type and at least one value.
pub fn read_attribute(reader: &mut Reader) -> Result<Attribute, usize>
    ensures { Reads attribute_of attribute_stop reader.old reader.new result }
{
    let whole = expect(reader, 0x30)?;
    let mut inside = enter(reader, whole);
    let kind = expect(&mut inside, 0x06)?;
    let field = expect(&mut inside, 0x31)?;
    let count = count_some::<Anything>(enter(&inside, field))?;
    finish(&inside)?;
    Ok(Attribute {
        whole,
        kind,
        values: Entries { field, count },
    })
}

impl Located for Attribute {
    ghost reading = { attribute_of };

    ghost stop = { attribute_stop };

    fn read(reader: &mut Reader) -> Result<Attribute, usize> {
        read_attribute(reader)
    }
}

// As `Signers`: one type for both would need a method for the span in `Located`.
pub(crate) struct Attributes;

impl Entry for Attributes {
    ghost outcome = { attribute_entry };

    fn read(reader: &mut Reader) -> Result<Span, usize> {
        let attribute = read_attribute(reader)?;
        Ok(attribute.whole)
    }
}

/// The unsigned attributes, if their field is there: at least one.
// `fields::read_maybe_list` with `count_some` for `count`: the one list of its kind, so no parameter says which.
pub(crate) fn read_unsigned(reader: &mut Reader) -> Result<Option<Entries>, usize>
    ensures { ReadsMaybe unsigned_of entries_stop reader.old reader.new result }
{
    let Some(field) = read_optional(reader, 0xa1) else {
        return Ok(None);
    };
    let count = count_some::<Attributes>(enter(reader, field))?;
    Ok(Some(Entries { field, count }))
}
