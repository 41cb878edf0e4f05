//! Whether bytes are elements, down to the last level.
ghost use Rattle.std.specs.Prelude.{◌≡◌, ◌+◌, ◌^◌, ◌<◌, length, if◌then◌else◌, Ok, Err, MatchResult, nat_lt};
ghost use Rattle.der.specs.declared.broken.Broken.TheVariants.{Surplus};
ghost use Rattle.der.specs.Trees.{Starts, Forms, constructed};
ghost use Rattle.der.specs.Faults.{InElement, InForest};
ghost use Rattle.der.specs.Judged.{Walked, WalkedFirst, WalkedOne};

use crate::broken::Broken;
use crate::cause::Cause;
use crate::fault::Fault;
use crate::header::{Header, read_header};

/// Whether the bytes are elements back to back, at most `levels` levels deep; else the first fault.
pub fn walk(bytes: &[u8], levels: u8) -> Result<(), Fault>
    ensures { Walked levels bytes.now result }
{
    walk_elements(bytes, 0, levels)
}

/// How long the element is that the bytes begin with, at most `levels` levels deep; else its first fault.
pub fn walk_first(bytes: &[u8], levels: u8) -> Result<usize, Fault>
    ensures { WalkedFirst levels bytes.now result }
{
    walk_element(bytes, 0, levels)
}

/// Whether the bytes are one element and nothing else; what is behind it is not walked.
pub fn walk_one(bytes: &[u8], levels: u8) -> Result<(), Broken>
    ensures { WalkedOne levels bytes.now result }
{
    let end = walk_first(bytes, levels)?;
    nothing_behind(end, bytes.len())
}

/// Whether the one element ends where the bytes do.
fn nothing_behind(end: usize, length: usize) -> Result<(), Broken>
    ensures { result ≡ (if nat_lt end length then Err (Surplus end) else Ok tt) }
{
    if end < length {
        Err(Broken::Surplus(end))
    } else {
        Ok(())
    }
}

/// Whether the contents of an element with this tag are elements.
fn is_constructed(tag: u8) -> bool
    ensures { result ≡ constructed tag }
{
    tag & 0x20 != 0
}

/// The length of the element that the bytes begin with, whose tag has the offset `place`.
#[cycle(walk_element_walk_elements)]
fn walk_element(bytes: &[u8], place: usize, levels: u8) -> Result<usize, Fault>
    requires { place + length bytes.now < 2 ^ 64 }
    ensures { MatchResult result (λ n. Starts levels bytes.now n) (λ f. InElement levels bytes.now place f) }
{
    if levels == 0 {
        return Err(Fault {
            place,
            cause: Cause::TooDeep,
        });
    }
    let header = read_header(bytes).map_err(|cause| Fault { place, cause })?;
    let end = header.head + header.size;
    if is_constructed(header.tag) {
        walk_elements(&bytes[header.head..end], place + header.head, levels - 1)?;
    }
    Ok(end)
}

/// Whether the bytes, the first of which has the offset `place`, are elements back to back.
#[cycle(walk_element_walk_elements)]
fn walk_elements(bytes: &[u8], place: usize, levels: u8) -> Result<(), Fault>
    requires { place + length bytes.now < 2 ^ 64 }
    ensures { MatchResult result (λ _. Forms levels bytes.now) (λ f. InForest levels bytes.now place f) }
{
    let mut at = 0;
    // Only the walk of an element tells where the next one begins, so no iterator could hand them out before.
    while at < bytes.len() {
        at += walk_element(&bytes[at..], place + at, levels)?;
    }
    Ok(())
}
