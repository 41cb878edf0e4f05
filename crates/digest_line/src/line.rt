//! A line with a digest in hexadecimal digits.
ghost use Rattle.std.specs.Prelude.{◌≡◌, ℕ, ◌<◌, ◌≤◌, List, ◌++◌, take, IfOk, OnOk};
ghost use Rattle.digest_line.specs.Hex.{digit_for, hex_of};

use digest::interface::Digest;
use std::alloc::{AllocError, Global};

// Not the library `hex`: the digits would be written by a crate that is trusted as it comes built.

fn digit(n: u8) -> u8
    requires { n < 16 }
    ensures { result ≡ digit_for n }
{
    if n < 10 { b'0' + n } else { b'a' + (n - 10) }
}

/// Appends the bytes, each as two digits.
fn push_hex(text: &mut Vec<u8>, bytes: &[u8]) -> Result<(), AllocError>
    ensures { OnOk result (text.new.items ≡ text.old.items ++ hex_of bytes.now) }
{
    for b in bytes {
        text.extend_from_slice(&[digit(*b / 16), digit(*b % 16)])?;
    }
    Ok(())
}

/// The text `front`, the bytes in hexadecimal digits, and the text `end`. Fails only for want of memory.
pub fn hex_line(heap: Global, front: &[u8], bytes: &[u8], end: &[u8]) -> Result<Vec<u8>, AllocError>
    ensures { IfOk result (λ line. line.items ≡ (front.now ++ hex_of bytes.now) ++ end.now) }
{
    let mut line = Vec::new(heap);
    line.extend_from_slice(front)?;
    push_hex(&mut line, bytes)?;
    line.extend_from_slice(end)?;
    Ok(line)
}

/// Writes the digest of what a state stands for to the front of the area, and answers how long it is.
fn finish_into<G: Digest>(state: &G, area: &mut [u8; 64]) -> usize
    ensures fits { result ≤ 64 }
    ensures digest { (xs : List ℕ) → G.stands state.now xs → take result area.new ≡ G.value xs }
{
    let _ = state.finish(area);
    G::width()
}

/// The same line of the digest of what a state stands for.
pub fn digest_line<G: Digest>(
    heap: Global,
    front: &[u8],
    state: &G,
    end: &[u8],
) -> Result<Vec<u8>, AllocError>
    ensures { (xs : List ℕ) → G.stands state.now xs → IfOk result (λ line. line.items ≡ (front.now ++ hex_of (G.value xs)) ++ end.now) }
{
    let mut area = [0u8; 64];
    let width = finish_into(state, &mut area);
    hex_line(heap, front, &area[..width], end)
}
