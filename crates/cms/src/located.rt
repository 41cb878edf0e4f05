//! Where the parts of a message lie: what a reading finds.
ghost use Rattle.std.specs.Prelude.{◌≡◌};
ghost use Rattle.der.specs.Spans.{part};

use der::{Element, Span};
use fields::Entries;

/// An attribute: its type, and the set of its values.
#[derive(Clone, Copy)]
pub struct Attribute {
    pub whole: Span,
    pub kind: Span,
    pub values: Entries,
}

/// A signer: its six fields, and its unsigned attributes if there are any.
#[derive(Clone, Copy)]
pub struct Signer {
    pub whole: Span,
    pub version: Span,
    pub identifier: Span,
    pub digest: Span,
    pub signed: Entries,
    pub algorithm: Span,
    pub signature: Span,
    pub unsigned: Option<Entries>,
}

/// The content of a message, and the field around it.
#[derive(Clone, Copy)]
pub enum Content {
    /// There is none: the file is detached.
    Detached,
    /// One octet string.
    Plain { field: Span, octets: Span },
    /// Octet strings whose contents are joined.
    Segmented { field: Span, segments: Entries },
}

/// The content type and the content.
#[derive(Clone, Copy)]
pub struct ContentInfo {
    pub whole: Span,
    pub kind: Span,
    pub content: Content,
}

/// A signed message.
#[derive(Clone, Copy)]
pub struct Message {
    pub whole: Span,
    pub version: Span,
    pub digests: Span,
    pub info: ContentInfo,
    pub certificates: Option<Entries>,
    pub revocations: Option<Entries>,
    pub signers: Entries,
}

impl Attribute {
    /// The contents of its type's identifier, in the bytes that the attribute lies in.
    pub fn name<'a>(&self, bytes: &'a [u8]) -> &'a [u8]
        ensures { result.now ≡ part bytes.now self.now.kind.body self.now.kind.end }
    {
        let kind = Element {
            bytes,
            span: self.kind,
        };
        kind.contents()
    }
}
