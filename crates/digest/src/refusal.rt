//! Why a digest or a content source refuses.

/// Each case has the number by which every call of the library tells it.
#[derive(Clone, Copy, Debug, PartialEq, Eq)]
pub enum Refusal {
    /// A content source would have more than 8,388,608 bytes.
    LongSource = 8,
    /// The area has fewer bytes than the digest.
    ShortArea = 15,
    /// The digest would take more than 16,777,216 bytes.
    LongInput = 16,
}
