//! Single elements of a message, read in turn.
ghost use Rattle.std.specs.Prelude.{◌≡◌, ℕ, Bool, List, Result, MatchResult};
ghost use Rattle.fields.specs.Reads.{Reads, FindsOptional, Tells, whole_of, any_of, allowed_of, expect_of, optional_of, finish_of, number_of, named_of, span_stop, number_stop};

use crate::inside::Inside;
use crate::located::Number;
use crate::tag_set::{Only, TagSet};
use der::{Element, Reader, Span};

// A reader's error is an offset, here and above: all there is to say of a break. Callers name the case.

/// The next element, whatever its tag; where there is none, the place where the contents end.
pub fn read_any(reader: &mut Reader) -> Result<Span, usize>
    ensures { Reads any_of span_stop reader.old reader.new result }
{
    let at = reader.at;
    let element = reader.next().map_err(|_| at)?;
    Ok(element.span)
}

/// The next element, whose tag must be one of the set.
pub fn read_in_set<T: TagSet>(reader: &mut Reader, allowed: &T) -> Result<Span, usize>
    ensures { Reads (allowed_of (T.tags allowed.now)) span_stop reader.old reader.new result }
{
    let at = reader.at;
    let element = read_any(reader)?;
    if allowed.contains(element.tag) {
        Ok(element)
    } else {
        Err(at)
    }
}

/// The next element, whose tag must be one of those that are allowed. The test is any closure, where `read_in_set` takes a
/// set that has a type.
pub fn read_allowed<F: FnOnce(u8) -> bool>(reader: &mut Reader, allows: F) -> Result<Span, usize>
    requires { F.IsAlwaysCallable allows }
    ensures { (tags : ℕ → Bool) → Tells (F.post allows) tags → Reads (allowed_of tags) span_stop reader.old reader.new result }
{
    let at = reader.at;
    let element = read_any(reader)?;
    if allows(element.tag) {
        Ok(element)
    } else {
        Err(at)
    }
}

/// The next element, which must have the tag.
pub fn expect(reader: &mut Reader, tag: u8) -> Result<Span, usize>
    ensures { Reads (expect_of tag) span_stop reader.old reader.new result }
{
    read_in_set(reader, &Only { tag })
}

/// The next element, if it has the tag.
pub fn read_optional(reader: &mut Reader, tag: u8) -> Option<Span>
    ensures { FindsOptional tag reader.old reader.new result }
{
    let mut ahead = *reader;
    let element = expect(&mut ahead, tag).ok()?;
    *reader = ahead;
    Some(element)
}

/// A reader of what is inside an element of the reader's bytes.
pub fn enter<'a>(reader: &Reader<'a>, element: Span) -> Reader<'a>
    ensures { (result.bytes.now ≡ reader.now.bytes.now) × (result.at ≡ element.body) × (result.end ≡ element.end) }
{
    Reader {
        bytes: reader.bytes,
        at: element.body,
        end: element.end,
    }
}

/// Nothing more.
pub fn finish(reader: &Reader) -> Result<(), usize>
    ensures { result ≡ finish_of reader.now.at reader.now.end }
{
    if reader.at < reader.end {
        Err(reader.at)
    } else {
        Ok(())
    }
}

/// One element with the tag, what its fields are, and nothing behind it.
pub fn read_single<I: Inside>(reader: Reader, tag: u8, fields: &I) -> Result<I::Parts, usize>
    ensures { result ≡ whole_of tag (I.outcome fields.now) reader.entry.bytes.now reader.entry.at reader.entry.end }
{
    let mut outside = reader;
    let whole = expect(&mut outside, tag)?;
    let parts = fields.read(&outside, whole)?;
    finish(&outside)?;
    Ok(parts)
}

/// The same, where a closure reads the fields; what it gives may borrow from the reader's bytes.
pub fn read_whole<'a, T: Copy, F: FnOnce(Reader<'a>, Span) -> Result<T, usize>>(
    reader: Reader<'a>,
    tag: u8,
    fields: F,
) -> Result<T, usize>
    requires { F.IsAlwaysCallable fields }
    ensures { (inside : List ℕ → Span → Result T ℕ) → ((r : Reader) (e : Span) (x : Result T ℕ) → F.post fields r e x → x ≡ inside r.bytes.now e)
        → result ≡ whole_of tag inside reader.entry.bytes.now reader.entry.at reader.entry.end }
{
    let mut behind = reader;
    let whole = expect(&mut behind, tag)?;
    let read = fields(behind, whole)?;
    finish(&behind)?;
    Ok(read)
}

/// The next element, tagged 02, of one byte.
pub fn read_number(reader: &mut Reader) -> Result<Number, usize>
    ensures { Reads number_of number_stop reader.old reader.new result }
{
    let at = reader.at;
    let element = expect(reader, 0x02)?;
    let whole = Element {
        bytes: reader.bytes,
        span: element,
    };
    match whole.contents() {
        [value] => Ok(Number {
            element,
            value: *value,
        }),
        _ => Err(at),
    }
}

/// The next element, tagged 06, with these contents.
pub fn expect_identifier(reader: &mut Reader, identifier: &[u8]) -> Result<Span, usize>
    ensures { Reads (named_of identifier.now) span_stop reader.old reader.new result }
{
    let at = reader.at;
    let element = expect(reader, 0x06)?;
    let whole = Element {
        bytes: reader.bytes,
        span: element,
    };
    if whole.contents() == identifier {
        Ok(element)
    } else {
        Err(at)
    }
}

#[cfg(test)]
mod tests {
    use super::*;
    use std::test::Fail;

    // Without `HostRuntime`: an assertion by it may abort, and what aborts is an axiom of `std`.

    /// A sequence of the number 5, and the number 6 behind it.
    const BYTES: [u8; 8] = [0x30, 3, 0x02, 1, 5, 0x02, 1, 6];

    /// Fails unless both are the same.
    fn expect_same<T: PartialEq + Drop>(found: T, want: T) -> Result<(), Fail> {
        if found == want {
            Ok(())
        } else {
            Err(Fail::new("another answer was wanted"))
        }
    }

    #[test]
    fn a_closure_tells_the_tags() -> Result<(), Fail> {
        let mut reader = Reader::new(&BYTES);
        let found = read_allowed(&mut reader, |tag| matches!(tag, 0x30 | 0xa1));
        expect_same(found.map(|e| (e.tag, e.body, e.end)), Ok((0x30, 2, 5)))?;
        expect_same(reader.at, 5)?;
        let refused = read_allowed(&mut reader, |tag| matches!(tag, 0x30 | 0xa1));
        expect_same(refused.map(|e| e.tag), Err(5))
    }

    #[test]
    fn a_closure_reads_the_fields() -> Result<(), Fail> {
        for (length, want) in [(4, Err(0)), (5, Ok(5)), (8, Err(5))] {
            let read = read_whole(Reader::new(&BYTES[..length]), 0x30, |outside, whole| {
                let mut inside = enter(&outside, whole);
                let number = read_number(&mut inside)?;
                finish(&inside)?;
                Ok(number.value)
            });
            expect_same(read, want)?;
        }
        Ok(())
    }

    // The clause speaks of that reader's bytes alone.
    #[test]
    fn the_closure_gets_the_reader_behind_the_element() -> Result<(), Fail> {
        let given = read_whole(Reader::new(&BYTES[..5]), 0x30, |outside, whole| {
            Ok((outside.at, outside.end, whole.start))
        });
        expect_same(given, Ok((5, 5, 0)))
    }

    #[test]
    fn what_is_read_may_borrow() -> Result<(), Fail> {
        let contents = read_whole(Reader::new(&BYTES[..5]), 0x30, |outside, span| {
            let bytes = outside.bytes;
            Ok(Element { bytes, span }.contents())
        });
        expect_same(contents, Ok([0x02, 1, 5].as_slice()))
    }
}
