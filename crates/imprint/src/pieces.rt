//! The pieces of an imprint input.

/// What an imprint is the digest of: four pieces, read one after another.
#[derive(Clone, Copy)]
pub struct Input<'a> {
    /// The content type element of the file.
    pub content_type: &'a [u8],
    /// The digest of the content, bare.
    pub content_digest: &'a [u8],
    /// The six fields of the signer, as they stand.
    pub fields: &'a [u8],
    /// The index, as carried.
    pub index: &'a [u8],
}

/// An area has fewer bytes than what is to be written.
#[derive(Clone, Copy, Debug, PartialEq, Eq)]
pub struct Short;
