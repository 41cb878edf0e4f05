//! What kind of message is expected.

/// How many signers a message has.
#[derive(Clone, Copy)]
pub enum SignerCount {
    AtLeastOne,
    ExactlyOne,
    Nobody,
}

/// What content a message has.
#[derive(Clone, Copy)]
pub enum ContentForm {
    /// Of any type, plain, segmented or detached.
    Any,
    /// Of the type of time-stamp tokens, and plain.
    TimeStampInfo,
}

/// The settings of the one grammar: a file and a time-stamp token differ in these alone.
#[derive(Clone, Copy)]
pub struct Settings {
    pub signers: SignerCount,
    pub content: ContentForm,
}
