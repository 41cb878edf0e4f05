//! The headers of a composed stamp.
use der::HeaderBytes;

/// Those of the signer and of what is inside it, and how many bytes the signer has in all.
// Not an array: each header is told by the name of its element.
#[derive(Clone, Copy)]
pub struct Inner {
    pub(crate) signer: HeaderBytes,
    pub(crate) unsigned: HeaderBytes,
    pub(crate) carrier: HeaderBytes,
    pub(crate) set: HeaderBytes,
    pub(crate) total: usize,
}

/// Those around the signer, and how many bytes the stamp has in all.
#[derive(Clone, Copy)]
pub struct Outer {
    pub(crate) stamp: HeaderBytes,
    pub(crate) values: HeaderBytes,
    pub(crate) message: HeaderBytes,
    pub(crate) field: HeaderBytes,
    pub(crate) data: HeaderBytes,
    pub(crate) signers: HeaderBytes,
    pub(crate) total: usize,
}

/// All headers of a composed stamp.
#[derive(Clone, Copy)]
pub struct Headers {
    pub(crate) inner: Inner,
    pub(crate) outer: Outer,
}
