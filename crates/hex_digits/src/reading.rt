//! Digits and the bytes that they give.
ghost use Rattle.std.specs.Prelude.{◌≡◌, ◌<◌, IfSome, IfOk, Some, None, MatchOption};
ghost use Rattle.hex_digits.specs.Digits.{value_of, bytes_of};

use std::alloc::{AllocError, Global};

/// The value of a digit, lower case.
fn value(digit: u8) -> Option<u8>
    ensures value { result ≡ value_of digit }
    ensures small { IfSome result (λ v. v < 16) }
{
    match digit {
        b'0'..=b'9' => Some(digit - b'0'),
        b'a'..=b'f' => Some(digit - b'a' + 10),
        _ => None,
    }
}

/// The bytes that a text gives in hexadecimal digits, lower case, two for each; none where it is no such text.
/// Fails only for want of memory.
pub fn read_hex(heap: Global, text: &[u8]) -> Result<Option<Vec<u8>>, AllocError>
    ensures { IfOk result (λ bytes. MatchOption bytes (bytes_of text.now ≡ None) (λ items. bytes_of text.now ≡ Some items.items)) }
{
    // Not `hex::decode`: it reads upper case too, which is refused here.
    let mut bytes = Vec::new(heap);
    let mut rest = text;
    while let [high, low, tail @ ..] = rest {
        let (Some(high), Some(low)) = (value(*high), value(*low)) else {
            return Ok(None);
        };
        bytes.push(high * 16 + low)?;
        rest = tail;
    }
    if rest.is_empty() {
        Ok(Some(bytes))
    } else {
        Ok(None)
    }
}
