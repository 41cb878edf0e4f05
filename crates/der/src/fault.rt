//! Where and why bytes are no element.
use crate::cause::Cause;

/// The offset of the tag of the element that is at fault, and what is wrong with it.
#[derive(Clone, Copy, Debug, PartialEq, Eq)]
pub struct Fault {
    pub place: usize,
    pub cause: Cause,
}
