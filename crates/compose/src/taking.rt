//! What a stamp takes over from a token, found.
ghost use Rattle.std.specs.Prelude.{ℕ};
ghost use Rattle.model.specs.Parts.{Signer};
ghost use Rattle.model.specs.Files.{File};
ghost use Rattle.stamp_model.specs.Tokens.{Info};
ghost use Rattle.token.specs.Tokens.{IsToken, LiesAsToken};
ghost use Rattle.compose.specs.Taken.{Takes};

use crate::leads::Leads;
use areas::cut;
use token::TokenParts;

/// The front of a token's signed data and its signer's six fields; `parts` says where they lie.
pub fn leads_of<'a>(token: &'a [u8], parts: &TokenParts) -> Leads<'a>
    ensures { (levels : ℕ) (f : File) (s : Signer) (i : Info) → IsToken levels token.now f s i → LiesAsToken token.now parts.now f s i → Takes result f s }
{
    Leads {
        front: cut(
            token,
            parts.message.whole.body,
            parts.message.signers.field.start,
        ),
        six: cut(token, parts.signer.whole.body, parts.signer.signature.end),
    }
}
