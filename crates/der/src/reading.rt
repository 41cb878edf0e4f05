//! Elements handed out one after another, each a part of the bytes with its offset.
ghost use Rattle.std.specs.Prelude.{◌≡◌, ℕ, ◌+◌, ◌^◌, ◌<◌, length, MatchResult, nat_le};
ghost use Rattle.der.specs.Trees.{Tree, node, Forest, more, Valids, encode, encodes};
ghost use Rattle.der.specs.Spans.{part, span_at, Handed, Stayed, FirstTree};

use crate::element::Element;
use crate::fault::Fault;
use crate::header::{Header, read_header};
use crate::reader::Reader;
use crate::span::Span;
use areas::cut;

/// Where the element lies whose header stands at `start`.
fn locate(start: usize, header: Header) -> Span
    requires { start + header.head + header.size < 2 ^ 64 }
    ensures { result ≡ span_at start header }
{
    let body = start + header.head;
    Span {
        tag: header.tag,
        start,
        body,
        end: body + header.size,
    }
}

impl<'a> Reader<'a> {
    /// A reader of all the bytes, from the first on.
    pub fn new(bytes: &'a [u8]) -> Reader<'a>
        ensures { (result.bytes.now ≡ bytes.now) × (result.at ≡ 0) × (result.end ≡ length bytes.now) }
    {
        Reader {
            bytes,
            at: 0,
            end: bytes.len(),
        }
    }

    /// Whether no byte is left.
    pub fn is_empty(&self) -> bool
        ensures { result ≡ nat_le self.now.end self.now.at }
    {
        self.end <= self.at
    }

    /// The element at the offset, which then is its end; else why there is none, and the offset stays.
    pub fn next(&mut self) -> Result<Element<'a>, Fault>
        ensures stands { (self.new.bytes.now ≡ self.old.bytes.now) × (self.new.end ≡ self.old.end) }
        ensures reads { MatchResult result
            (λ e. (e.bytes.now ≡ self.old.bytes.now)
            × Handed self.old.bytes.now self.old.at self.old.end e.span self.new.at)
            (λ f. Stayed self.old.bytes.now self.old.at self.old.end f self.new.at) }
        ensures trees { (t : Tree) (ts : Forest) (levels : ℕ) → Valids (more t ts) levels
            → part self.old.bytes.now self.old.at self.old.end ≡ encodes (more t ts)
            → MatchResult result
            (λ e. FirstTree self.old.bytes.now self.old.end t ts e.span self.new.at)
            (λ _. ⊥) }
    {
        let start = self.at;
        let header = read_header(cut(self.bytes, start, self.end)).map_err(|cause| Fault {
            place: start,
            cause,
        })?;
        let span = locate(start, header);
        self.at = span.end;
        Ok(Element {
            bytes: self.bytes,
            span,
        })
    }
}

impl<'a> Element<'a> {
    /// The bytes of the element, header and all.
    pub fn whole(&self) -> &'a [u8]
        ensures { result.now ≡ part self.now.bytes.now self.now.span.start self.now.span.end }
    {
        cut(self.bytes, self.span.start, self.span.end)
    }

    /// The bytes behind the header.
    pub fn contents(&self) -> &'a [u8]
        ensures { result.now ≡ part self.now.bytes.now self.now.span.body self.now.span.end }
    {
        cut(self.bytes, self.span.body, self.span.end)
    }

    /// A reader of the elements inside, with offsets of the same bytes.
    pub fn enter(&self) -> Reader<'a>
        ensures { (result.bytes.now ≡ self.now.bytes.now) × (result.at ≡ self.now.span.body) × (result.end ≡ self.now.span.end) }
    {
        Reader {
            bytes: self.bytes,
            at: self.span.body,
            end: self.span.end,
        }
    }
}
