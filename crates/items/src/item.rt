//! What is handed out.

/// What a list is made of.
#[derive(Clone, Copy)]
pub enum Kind {
    Certificate,
    Revocation,
    Attribute,
    SignerField,
}

/// An element of a file, header and all, as a part of the file's bytes.
#[derive(Clone, Copy)]
pub enum Item<'a> {
    Certificate(&'a [u8]),
    Revocation(&'a [u8]),
    Attribute(&'a [u8]),
    SignerField(&'a [u8]),
}

/// An item, and the offset of its tag in the file.
#[derive(Clone, Copy)]
pub struct Handed<'a> {
    pub offset: usize,
    pub item: Item<'a>,
}
