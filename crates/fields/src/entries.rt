//! Lists of elements in a field.
ghost use Rattle.std.specs.Prelude.{◌≡◌};
ghost use Rattle.fields.specs.Reads.{Reads, ReadsMaybe, Reading, list_of, some_of, list_field, maybe_list, entries_stop, span_stop};

use crate::elements::{enter, expect, read_optional};
use crate::located::Entries;
use der::{Reader, Span};

/// What the entries of a list are.
pub trait Entry {
    /// How one entry is read.
    ghost outcome: { Reading };

    fn read(reader: &mut Reader) -> Result<Span, usize>
        ensures { Reads outcome span_stop reader.old reader.new result };
}

/// How many entries stand from the reader's offset to its end.
pub fn count<E: Entry>(inside: Reader) -> Result<usize, usize>
    ensures { result ≡ list_of E.outcome inside.entry.bytes.now inside.entry.at inside.entry.end }
{
    let mut reader = inside;
    let mut count = 0;
    // A `for` would need the entries first: here each is read where the one before it ended, and a break is told.
    while reader.at < reader.end {
        E::read(&mut reader)?;
        count += 1;
    }
    Ok(count)
}

/// The same, at least one.
pub fn count_some<E: Entry>(inside: Reader) -> Result<usize, usize>
    ensures { result ≡ some_of E.outcome inside.entry.bytes.now inside.entry.at inside.entry.end }
{
    if inside.at < inside.end {
        count::<E>(inside)
    } else {
        Err(inside.end)
    }
}

/// A field, tagged so, that holds a list: any number of entries.
pub fn read_list<E: Entry>(reader: &mut Reader, tag: u8) -> Result<Entries, usize>
    ensures { Reads (list_field tag E.outcome) entries_stop reader.old reader.new result }
{
    let field = expect(reader, tag)?;
    let count = count::<E>(enter(reader, field))?;
    Ok(Entries { field, count })
}

/// The same, if the field is there.
pub fn read_maybe_list<E: Entry>(reader: &mut Reader, tag: u8) -> Result<Option<Entries>, usize>
    ensures { ReadsMaybe (maybe_list tag E.outcome) entries_stop reader.old reader.new result }
{
    let Some(field) = read_optional(reader, tag) else {
        return Ok(None);
    };
    let count = count::<E>(enter(reader, field))?;
    Ok(Some(Entries { field, count }))
}
