//! The three lists of a file.

/// Which list: certificates and revocation entries are the file's, unsigned attributes are one signer's.
#[derive(Clone, Copy, Debug, PartialEq, Eq)]
pub enum ListName {
    Certificates = 1,
    Revocations = 2,
    Attributes = 3,
}
