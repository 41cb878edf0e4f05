//! Elements back to back, of which so many may stand there.
ghost use Rattle.std.specs.Prelude.{◌≡◌, ℕ, ◌≤◌, length};
ghost use Rattle.der.specs.Spans.{part};
ghost use Rattle.der.specs.Trees.{Forest, Valids, encodes};
ghost use Rattle.rules.specs.Limits.{too_many_of};
ghost use Rattle.limits.specs.Past.{left_of, past_of};

use der::Reader;

/// The place of the element that the reader stands at, if any byte is left.
pub(crate) fn place_left(reader: &Reader) -> Option<usize>
    ensures { result ≡ left_of reader.now.at reader.now.end }
{
    if reader.is_empty() {
        None
    } else {
        Some(reader.at)
    }
}

/// The place behind the first `limit` elements, if any byte is left there.
pub(crate) fn find_past(inside: Reader, limit: usize) -> Option<usize>
    ensures { result ≡ past_of limit inside.entry.bytes.now inside.entry.at inside.entry.end }
{
    let mut reader = inside;
    for _ in 0..limit {
        let Ok(_) = reader.next() else {
            return None;
        };
    }
    place_left(&reader)
}

/// The place of the first element past the limit, in contents that are elements back to back.
pub fn too_many(inside: Reader, limit: usize) -> Option<usize>
    ensures computed { result ≡ past_of limit inside.entry.bytes.now inside.entry.at inside.entry.end }
    ensures meaning { (ts : Forest) (levels : ℕ) → Valids ts levels → inside.entry.at ≤ inside.entry.end → inside.entry.end ≤ length inside.entry.bytes.now
        → part inside.entry.bytes.now inside.entry.at inside.entry.end ≡ encodes ts
        → result ≡ too_many_of limit inside.entry.at ts }
{
    find_past(inside, limit)
}
