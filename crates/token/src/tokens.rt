//! Tokens as a whole.
ghost use Rattle.std.specs.Prelude.{◌≡◌, MatchResult};
ghost use Rattle.token.specs.Tokens.{octets_for, TokenAt, NoToken};

use crate::infos::read_info;
use crate::parts::{TokenFault, TokenParts};
use cms::{Content, ContentForm, Settings, SignerCount};
use der::{Element, Span};
use message::read_within;
use rules::find_signer;

/// The settings of a token.
const SETTINGS: Settings = Settings {
    signers: SignerCount::ExactlyOne,
    content: ContentForm::TimeStampInfo,
};

/// The octet string of plain content.
fn octets_of(content: Content) -> Option<Span>
    ensures { result ≡ octets_for content }
{
    match content {
        Content::Plain { octets, .. } => Some(octets),
        Content::Detached | Content::Segmented { .. } => None,
    }
}

/// Where the parts of a token lie, with so many levels at hand; or what is at fault.
/// The contents of its octet string are handed on with their place.
pub fn read_token(token: &[u8], levels: u8) -> Result<TokenParts, TokenFault>
    ensures { MatchResult result (TokenAt levels token.now) (NoToken levels token.now) }
{
    let message = read_within(token, SETTINGS, levels)?;
    let Some(octets) = octets_of(message.info.content) else {
        unreachable()
    };
    let Some(signer) = find_signer(message.signers.inside(token), 0) else {
        unreachable()
    };
    let contents = Element {
        bytes: token,
        span: octets,
    };
    let info = read_info(contents.contents()).map_err(|fault| TokenFault::Info {
        at: octets.body,
        fault,
    })?;
    Ok(TokenParts {
        message,
        signer,
        octets,
        info,
    })
}
