//! Algorithms.
ghost use Rattle.fields.specs.Reads.{Reads, ReadsMaybe, span_stop};
ghost use Rattle.index.specs.Records.{null_of, algorithm_of, algorithm_stop};

use crate::located::AlgorithmParts;
use der::{Reader, Span};
use fields::{enter, expect, finish, read_optional};

/// The empty parameters, if an element tagged 05 comes next.
fn read_null(reader: &mut Reader) -> Result<Option<Span>, usize>
    ensures { ReadsMaybe null_of span_stop reader.old reader.new result }
{
    match read_optional(reader, 0x05) {
        None => Ok(None),
        Some(null) if null.body < null.end => Err(null.start),
        Some(null) => Ok(Some(null)),
    }
}

/// An algorithm: an identifier, and optionally the empty parameters 05 00.
pub fn read_algorithm(reader: &mut Reader) -> Result<AlgorithmParts, usize>
    ensures { Reads algorithm_of algorithm_stop reader.old reader.new result }
{
    let whole = expect(reader, 0x30)?;
    let mut inside = enter(reader, whole);
    let name = expect(&mut inside, 0x06)?;
    let null = read_null(&mut inside)?;
    finish(&inside)?;
    Ok(AlgorithmParts {
        whole,
        name,
        null: null.is_some(),
    })
}
