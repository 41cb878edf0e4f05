//! What is found of single elements and of lists.
ghost use Rattle.std.specs.Prelude.{◌≡◌};

use der::{Reader, Span};

/// An element of one byte.
#[derive(Clone, Copy)]
pub struct Number {
    pub element: Span,
    pub value: u8,
}

/// A field that holds a list, and how many entries it has.
#[derive(Clone, Copy)]
pub struct Entries {
    pub field: Span,
    pub count: usize,
}

impl Entries {
    /// A reader of the entries, in the bytes that the field lies in.
    pub fn inside<'a>(self, bytes: &'a [u8]) -> Reader<'a>
        ensures { (result.bytes.now ≡ bytes.now) × (result.at ≡ self.field.body) × (result.end ≡ self.field.end) }
    {
        Reader {
            bytes,
            at: self.field.body,
            end: self.field.end,
        }
    }
}
