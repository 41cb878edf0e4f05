//! A list that hands out its elements.
use crate::item::Kind;
use der::Reader;

/// What is left of a list: the elements from the reader's offset to its end.
#[derive(Clone, Copy)]
pub struct Items<'a> {
    pub reader: Reader<'a>,
    pub kind: Kind,
}
