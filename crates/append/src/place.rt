//! Where a list lies.

/// The offsets of a list's field, standing or to be made, and of the elements around it, the innermost first.
#[derive(Clone, Copy)]
pub(crate) enum Path {
    /// Of a list of the message.
    OfMessage([usize; 4]),
    /// Of a list of a signer.
    OfSigner([usize; 6]),
}

/// The place of a list, whether its field is there, and the field's tag.
// A plain yes or no: a field that is not there has its offsets all the same.
#[derive(Clone, Copy)]
pub(crate) struct Place {
    pub(crate) path: Path,
    pub(crate) there: bool,
    pub(crate) tag: u8,
}
