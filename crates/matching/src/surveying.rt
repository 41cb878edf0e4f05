//! The elements of a file, one by one against the entries of an index.
ghost use Rattle.std.specs.Prelude.{◌≡◌, ℕ, ◌+◌, ◌≤◌, List, map, length};
ghost use Rattle.der.specs.Trees.{Tree, body_of};
ghost use Rattle.digest.specs.Took.{most};
ghost use Rattle.stamp_model.specs.Indexes.{Index};
ghost use Rattle.index.specs.Puts.{Put};
ghost use Rattle.index.specs.Standing.{Stand, StandLists, entry_trees};
ghost use Rattle.matching.specs.Lists.{holds as Holds};
ghost use Rattle.matching.specs.Rows.{side_for, rows_from, rows_of, inside_in, Surveyed};

use crate::row::{Row, Side, Tally};
use digest::interface::Digest;
use index::{ElementLists, Elements, put_digest};
use stamp_model::ListName;

/// Whether one of the entries is the bytes that are wanted.
fn has_entry(mut entries: Elements, wanted: &[u8]) -> bool
    ensures { (us : List Tree) → Stand entries.entry us → result ≡ Holds (map body_of us) wanted.now }
{
    entries.any(|entry| entry.contents() == wanted)
}

/// The side of an element: its digest is made once, and compared with each entry.
fn side_of<G: Digest>(element: &[u8], entries: Elements) -> Side
    ensures { (us : List Tree) → Stand entries.entry us → length element.now ≤ most
        → result ≡ side_for (map body_of us) (G.value element.now) }
{
    let mut digest = [0u8; 64];
    let end = put_digest::<G>(&mut digest, 0, element);
    if has_entry(entries, &digest[0..end]) {
        Side::Inside
    } else {
        Side::Outside
    }
}

/// Puts one row for each element behind the first `at` rows of the table; answers where they end.
fn put_rows<G: Digest>(
    list: ListName,
    elements: Elements,
    entries: Elements,
    table: &mut [Row],
    at: usize,
) -> usize
    requires { at + elements.count ≤ length table.old }
    ensures few { result ≤ at + elements.entry.count }
    ensures rows { (ts us : List Tree) → Stand elements.entry ts → Stand entries.entry us
        → Put table.old table.new at (rows_from G.value list (map body_of us) elements.entry.reader.at ts) result }
{
    let mut stop = at;
    // The elements may be fewer than the record counts, so the table is not zipped with them: the place behind the last row is the answer.
    for element in elements {
        let whole = element.whole();
        table[stop] = Row {
            list,
            start: element.span.start,
            length: whole.len(),
            side: side_of::<G>(whole, entries),
        };
        stop += 1;
    }
    stop
}

/// How many of the rows are inside.
fn count_inside(rows: &[Row]) -> usize
    ensures value { result ≡ inside_in rows.now }
    ensures few { result ≤ length rows.now }
{
    rows.iter().filter(|row| row.side == Side::Inside).count()
}

/// Writes one row for each element of the three lists, in their order, to the front of the table, which has room for them.
/// Answers how many are inside and how many outside; what is behind the rows stays.
pub fn fill_rows<G: Digest>(lists: ElementLists, entries: ElementLists, table: &mut [Row]) -> Tally
    requires { lists.certificates.count + (lists.revocations.count + lists.attributes.count) ≤ length table.old }
    ensures { (trees : ListName → List Tree) (x : Index) → StandLists lists.entry trees → StandLists entries.entry (entry_trees x)
        → Surveyed (rows_of G.value lists.entry trees x) table.old table.new result }
{
    let revocations = put_rows::<G>(
        ListName::Certificates,
        lists.certificates,
        entries.certificates,
        table,
        0,
    );
    let attributes = put_rows::<G>(
        ListName::Revocations,
        lists.revocations,
        entries.revocations,
        table,
        revocations,
    );
    let end = put_rows::<G>(
        ListName::Attributes,
        lists.attributes,
        entries.attributes,
        table,
        attributes,
    );
    let inside = count_inside(&table[0..end]);
    Tally {
        inside,
        outside: end - inside,
    }
}
