//! Imprint inputs: found in a file, measured, written and digested.
ghost use Rattle.std.specs.Prelude.{◌≡◌, ◌+◌, ◌-◌, ◌*◌, ◌^◌, ◌≤◌, min, length};
ghost use Rattle.areas.specs.Pieces.{joined};
ghost use Rattle.digest.specs.Took.{Digested};
ghost use Rattle.model.specs.Files.{File};
ghost use Rattle.model.specs.Parts.{Signer as SignerPart};
ghost use Rattle.message.specs.Lies.{Lies, SignerLies};
ghost use Rattle.stamp_model.specs.Covering.{input_of};
ghost use Rattle.imprint.specs.Inputs.{bytes_of, Found, Written};

use crate::pieces::{Input, Short};
use areas::{cut, put_all};
use cms::{Message, Signer};
use der::Element;
use digest::digesting::digest_pieces;
use digest::interface::Digest;
use digest::refusal::Refusal;

/// The imprint input of a signer and an index. `message` and `signer` say where the parts lie in the file.
pub fn input_of<'a>(
    file: &'a [u8],
    message: &Message,
    signer: &Signer,
    content_digest: &'a [u8],
    index: &'a [u8],
) -> Input<'a>
    ensures computed { Found file.now message.now signer.now content_digest.now index.now result }
    ensures meaning { (f : File) (s : SignerPart) → Lies file.now message.now f → SignerLies file.now signer.now s
        → bytes_of result ≡ input_of f s content_digest.now index.now }
    ensures few { length (bytes_of result) ≤ 2 * length file.now + length content_digest.now + length index.now }
{
    let content_type = Element {
        bytes: file,
        span: message.info.kind,
    };
    Input {
        content_type: content_type.whole(),
        content_digest,
        fields: cut(file, signer.whole.body, signer.signature.end),
        index,
    }
}

impl<'a> Input<'a> {
    /// The pieces, in their order.
    fn pieces(&self) -> [&'a [u8]; 4]
        ensures { joined result ≡ bytes_of self.now }
    {
        [
            self.content_type,
            self.content_digest,
            self.fields,
            self.index,
        ]
    }
}

/// How many bytes an imprint input has; the largest number stands for more.
pub fn input_length(input: &Input) -> usize
    ensures { result ≡ min (length (bytes_of input.now)) (2 ^ 64 - 1) }
{
    // Four lengths in a row are as plain as a fold over the pieces, and need no closure.
    input
        .content_type
        .len()
        .saturating_add(input.content_digest.len())
        .saturating_add(input.fields.len())
        .saturating_add(input.index.len())
}

/// Writes an imprint input to the front of the area. Answers its length.
/// Refuses an area that is shorter, which stays as it was.
pub fn write_input(input: &Input, area: &mut [u8]) -> Result<usize, Short>
    ensures { Written (bytes_of input.now) area.old area.new result }
{
    if area.len() < input_length(input) {
        return Err(Short);
    }
    Ok(put_all(area, 0, &input.pieces()))
}

/// Writes the digest of an imprint input to the front of the area. Refuses an area that is shorter than the digest,
/// which stays as it was; and first, more than 16,777,216 bytes, which no imprint input of a file has.
pub fn digest_input<G: Digest>(input: &Input, area: &mut [u8]) -> Result<(), Refusal>
    ensures { Digested G.value G.size (bytes_of input.now) area.old area.new result }
{
    digest_pieces::<G>(&input.pieces(), area)
}
