//! Why a file cannot grow.

/// The first reason that holds.
#[derive(Clone, Copy, Debug, PartialEq, Eq)]
pub enum Full {
    /// The file would have more than 65,535 bytes.
    TooLong = 1,
    /// The file would be longer than its buffer.
    NoRoom = 2,
}
