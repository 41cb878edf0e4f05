//! One header, taken apart byte by byte.
ghost use Rattle.std.specs.Prelude.{◌≡◌};
ghost use Rattle.der.specs.Head.{header_of, length_of, fits};

use crate::cause::Cause;

/// A tag, how many bytes the header has, and how many the contents.
#[derive(Clone, Copy)]
pub struct Header {
    pub tag: u8,
    pub head: usize,
    pub size: usize,
}

/// The header that the bytes begin with, whose contents have to end within the bytes; else why there is none.
pub fn read_header(bytes: &[u8]) -> Result<Header, Cause>
    ensures { result ≡ header_of bytes.now }
{
    match bytes {
        [] => Err(Cause::Missing),
        [tag, ..] if *tag & 0x1f == 0x1f => Err(Cause::HighTag),
        [tag, rest @ ..] => read_length(*tag, rest),
    }
}

/// The header of an element with this tag, from the bytes behind the tag.
fn read_length(tag: u8, bytes: &[u8]) -> Result<Header, Cause>
    ensures { result ≡ length_of tag bytes.now }
{
    match bytes {
        [] => Err(Cause::Missing),
        [size @ 0..=0x7f, rest @ ..] => fitting(tag, 2, *size as usize, rest),
        [0x80, ..] => Err(Cause::Indefinite),
        [0x81, 0..=0x7f, ..] => Err(Cause::LongLength),
        [0x81, size, rest @ ..] => fitting(tag, 3, *size as usize, rest),
        [0x82, 0, _, ..] => Err(Cause::LongLength),
        [0x82, high, low, rest @ ..] => fitting(tag, 4, *high as usize * 256 + *low as usize, rest),
        [0x83..=0xff, ..] => Err(Cause::HugeLength),
        _ => Err(Cause::Missing),
    }
}

/// The header, if the bytes behind it hold the contents.
fn fitting(tag: u8, head: usize, size: usize, rest: &[u8]) -> Result<Header, Cause>
    ensures { result ≡ fits tag head size rest.now }
{
    if size <= rest.len() {
        Ok(Header { tag, head, size })
    } else {
        Err(Cause::Missing)
    }
}
