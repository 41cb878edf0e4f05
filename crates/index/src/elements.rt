//! Elements of a file's lists, where they stand in its bytes.
use der::Reader;

/// Elements back to back, from the reader's offset to its end, and how many there are.
#[derive(Clone, Copy)]
pub struct Elements<'a> {
    pub reader: Reader<'a>,
    pub count: usize,
}

/// The elements of the three lists.
#[derive(Clone, Copy)]
pub struct ElementLists<'a> {
    pub certificates: Elements<'a>,
    pub revocations: Elements<'a>,
    pub attributes: Elements<'a>,
}
