//! Parts of one kind that stand back to back, handed out in turn.
ghost use Rattle.std.specs.Prelude.{◌≡◌, ℕ, List, Result};
ghost use Rattle.std.specs.Iterator.{YieldsFirst, item_count};
ghost use Rattle.fields.specs.Reads.{Reads};
ghost use Rattle.fields.specs.Runs.{run_of};

use der::Reader;
use std::marker::PhantomData;

/// A part of a message that says where it lies.
pub trait Located: Copy {
    /// How it is read.
    ghost reading: { List ℕ → ℕ → ℕ → Result Self ℕ };

    /// Where it ends.
    ghost stop: { Self → ℕ };

    /// The part that comes next, or the place where its reading breaks off.
    fn read(reader: &mut Reader) -> Result<Self, usize>
        ensures { Reads reading stop reader.old reader.new result };
}

/// The parts that stand back to back from the reader's offset to its end, up to the first break.
#[derive(Clone, Copy)]
pub struct Run<'a, T> {
    pub reader: Reader<'a>,
    kind: PhantomData<T>,
}

impl<'a, T> Run<'a, T> {
    /// What the reader stands at.
    pub fn of(reader: Reader<'a>) -> Run<'a, T>
        ensures { result.reader ≡ reader.entry }
    {
        Run {
            reader,
            kind: PhantomData,
        }
    }
}

impl<'a, T: Located> Iterator for Run<'a, T> {
    type Item = T;

    ghost next_gives = { YieldsFirst (λ run. run_of T.reading T.stop run.reader) };

    ghost remaining = { item_count (λ run. run_of T.reading T.stop run.reader) };

    fn next(&mut self) -> Option<T> {
        let mut ahead = self.reader;
        let part = T::read(&mut ahead).ok()?;
        self.reader = ahead;
        Some(part)
    }
}
