//! The outline of a file.
ghost use Rattle.std.specs.Prelude.{◌≡◌, IfOk, Some, string_bytes, vec_items, MatchResult};
ghost use Rattle.listing.specs.Told.{Lists, NoOutline, refusal_of};
ghost use Rattle.listing.specs.Pages.{lines_text, TextOf};
ghost use Rattle.listing.specs.declared.outline.OutlineError.TheVariants.{Refused, Memory};

use super::elements::list_elements;
use super::line::Line;
use super::refusal::Refusal;
use der::{Broken, Reader, walk_one};
use std::alloc::{AllocError, Global};
use std::fmt;

/// The longest file that is read.
const LONGEST: usize = 65_535;

/// How many levels of elements a file may have.
const LEVELS: u8 = 32;

/// The lines of a file, one for each element in reading order.
#[derive(Drop)]
pub struct Outline {
    pub lines: Vec<Line>,
}

/// Why there is no outline.
#[derive(Drop)]
pub enum OutlineError {
    /// The file is refused.
    Refused(Refusal),
    /// Memory is short.
    Memory(AllocError),
}

impl From<Broken> for OutlineError {
    ghost from_gives = { λ broken error. error ≡ Refused (refusal_of broken) };

    fn from(broken: Broken) -> OutlineError {
        match broken {
            Broken::Faulty(fault) => OutlineError::Refused(Refusal::Element(fault)),
            Broken::Surplus(end) => OutlineError::Refused(Refusal::Surplus(end)),
        }
    }
}

impl From<AllocError> for OutlineError {
    ghost from_gives = { λ short error. error ≡ Memory short };

    fn from(short: AllocError) -> OutlineError {
        OutlineError::Memory(short)
    }
}

/// The outline of a file. Want of memory is told of a whole file only.
pub fn make_outline(heap: Global, bytes: &[u8]) -> Result<Outline, OutlineError>
    ensures { MatchResult result (Lists bytes.now) (NoOutline bytes.now) }
{
    if bytes.is_empty() || bytes.len() > LONGEST {
        return Err(OutlineError::Refused(Refusal::Length));
    }
    walk_one(bytes, LEVELS)?;
    let mut lines = Vec::new(heap);
    list_elements(&mut lines, Reader::new(bytes), 1)?;
    Ok(Outline { lines })
}

/// The text of the outline of a file, or why it is refused; or want of memory.
pub fn tell_outline(heap: Global, bytes: &[u8]) -> Result<String, AllocError>
    ensures { IfOk result (λ text. TextOf bytes.now (string_bytes text)) }
{
    match make_outline(heap, bytes) {
        Ok(outline) => outline.to_string(heap),
        Err(OutlineError::Refused(refusal)) => format!(in heap; "{refusal}\n"),
        Err(OutlineError::Memory(error)) => Err(error),
    }
}

/// Each line, with a line end after it.
impl fmt::Display for Outline {
    ghost output = { λ o. Some (lines_text (vec_items o.lines)) };

    fn fmt<W: fmt::Write>(&self, f: &mut fmt::Formatter<W>) -> fmt::Result {
        for line in self.lines.as_slice() {
            f.writeln(line)?;
        }
        Ok(())
    }
}
