//! The lists that grow.
use cms::Signer;

/// A list of a signed message at whose end elements are appended.
#[derive(Clone, Copy)]
pub enum GrowingList<'a> {
    /// The certificates. Their field is made behind the content info if it is not there.
    Certificates,
    /// The revocation entries. Their field is made behind that of the certificates, or behind the content info, if it is not there.
    Revocations,
    /// The unsigned attributes of the signer that lies there. Their field is made as its last if it is not there.
    Attributes(&'a Signer),
}
