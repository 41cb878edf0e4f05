//! Where an element lies.

/// The tag of an element, and the offsets of its tag, of its contents and of its end.
#[derive(Clone, Copy)]
pub struct Span {
    pub tag: u8,
    pub start: usize,
    pub body: usize,
    pub end: usize,
}
