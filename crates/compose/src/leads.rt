//! What a stamp takes over from a token.

/// The front of the token's signed data, up to its signers, and the six fields of its signer.
#[derive(Clone, Copy)]
pub struct Leads<'a> {
    pub(crate) front: &'a [u8],
    pub(crate) six: &'a [u8],
}
