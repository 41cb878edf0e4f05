//! Indexes.
ghost use Rattle.std.specs.Prelude.{◌≡◌, ℕ, ◌≤◌, List, ◌++◌, length, IfOk};
ghost use Rattle.der.specs.Spans.{part};
ghost use Rattle.der.specs.Trees.{Tree, Valid, encode};
ghost use Rattle.fields.specs.Reads.{Reads, ReadsMaybe, entries_stop, broke};
ghost use Rattle.index.specs.Grammar.{index_break};
ghost use Rattle.index.specs.Places.{index_at};
ghost use Rattle.index.specs.Records.{algorithm_stop, has_algorithm_of, maybe_algorithm, list_at, index_in, index_parts_of};

use crate::algorithms::read_algorithm;
use crate::located::{AlgorithmParts, IndexParts};
use der::{Reader, Span};
use fields::{Inside, Octets, enter, expect, finish, read_list, read_single};

/// Whether the next element stands for an algorithm: it is tagged 30, and its first element 06.
fn has_algorithm(reader: &Reader) -> bool
    ensures { result ≡ has_algorithm_of reader.now.bytes.now reader.now.at reader.now.end }
{
    let mut ahead = *reader;
    let Ok(first) = expect(&mut ahead, 0x30) else {
        return false;
    };
    let mut inside = enter(reader, first);
    expect(&mut inside, 0x06).is_ok()
}

/// The algorithm, if one comes next.
fn read_maybe_algorithm(reader: &mut Reader) -> Result<Option<AlgorithmParts>, usize>
    ensures { ReadsMaybe maybe_algorithm algorithm_stop reader.old reader.new result }
{
    if !has_algorithm(reader) {
        return Ok(None);
    }
    Ok(Some(read_algorithm(reader)?))
}

/// The fields of an index.
#[derive(Clone, Copy)]
struct IndexFields;

impl Inside for IndexFields {
    type Parts = IndexParts;

    ghost outcome = { λ _. index_in };

    fn read(&self, reader: &Reader, whole: Span) -> Result<IndexParts, usize> {
        let mut inside = enter(reader, whole);
        let algorithm = read_maybe_algorithm(&mut inside)?;
        let certificates = read_list::<Octets>(&mut inside, 0x30)?;
        let revocations = read_list::<Octets>(&mut inside, 0x30)?;
        let attributes = read_list::<Octets>(&mut inside, 0x30)?;
        finish(&inside)?;
        Ok(IndexParts {
            whole,
            algorithm,
            certificates,
            revocations,
            attributes,
        })
    }
}

/// The index that stands from the reader's offset to its end, or the place of the first break.
fn read_parts(reader: Reader) -> Result<IndexParts, usize>
    ensures { result ≡ index_parts_of reader.entry.bytes.now reader.entry.at reader.entry.end }
{
    read_single(reader, 0x30, &IndexFields)
}

/// Where the parts lie of the index that stands from the reader's offset to its end,
/// or the place of the first field that is missing, wrong or surplus.
pub fn read_index(reader: Reader) -> Result<IndexParts, usize>
    ensures computed { result ≡ index_parts_of reader.entry.bytes.now reader.entry.at reader.entry.end }
    ensures meaning { (t : Tree) (surplus : List ℕ) (levels : ℕ) → Valid t levels → reader.entry.end ≤ length reader.entry.bytes.now
        → encode t ++ surplus ≡ part reader.entry.bytes.now reader.entry.at reader.entry.end
        → broke result ≡ index_break reader.entry.at t surplus }
    ensures places { (t : Tree) (surplus : List ℕ) (levels : ℕ) → Valid t levels → reader.entry.end ≤ length reader.entry.bytes.now
        → encode t ++ surplus ≡ part reader.entry.bytes.now reader.entry.at reader.entry.end
        → IfOk result (λ parts. parts ≡ index_at reader.entry.at t) }
{
    read_parts(reader)
}
