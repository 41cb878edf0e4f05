//! Whether an imprint is the digest that it should be.
ghost use Rattle.std.specs.Prelude.{◌≡◌, Decides};
ghost use Rattle.imprint.specs.Agreeing.{Agrees};
ghost use Rattle.imprint.specs.Inputs.{bytes_of};

use crate::inputs::digest_input;
use crate::pieces::Input;
use digest::interface::Digest;

/// Whether the imprint is the digest: the same bytes, and as many.
pub fn agrees(imprint: &[u8], digest: &[u8]) -> bool
    ensures { Decides result (imprint.now ≡ digest.now) }
{
    imprint == digest
}

/// Whether the imprint is the digest of the input. Of more than 16,777,216 bytes no imprint is.
pub fn is_imprint_of<G: Digest>(imprint: &[u8], input: &Input) -> bool
    ensures { Agrees G.value (bytes_of input.now) imprint.now result }
{
    let mut digest = [0u8; 64];
    digest_input::<G>(input, &mut digest).is_ok() && agrees(imprint, &digest[..G::width()])
}
