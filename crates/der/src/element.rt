//! An element that a reader hands out.
use crate::span::Span;

/// An element: where it lies in the bytes that its reader stands on.
#[derive(Clone, Copy)]
pub struct Element<'a> {
    pub bytes: &'a [u8],
    pub span: Span,
}
