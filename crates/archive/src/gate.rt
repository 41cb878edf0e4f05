//! The tests that every call begins with.
ghost use Rattle.std.specs.Prelude.{◌≡◌, MatchResult};
ghost use Rattle.model.specs.Files.{File};
ghost use Rattle.rules.specs.Attributes.{broken_rule_of};
ghost use Rattle.message.specs.Lies.{Lies};
ghost use Rattle.archive.specs.Steps.{AcceptedAt, RefusedFile};
ghost use Rattle.archive.specs.Opened.{OpensAt, Shut, SignerOpened};
ghost use Rattle.archive.specs.Outcome.{Refused};

use crate::opened::Opened;
use crate::refusal::Refusal;
use cms::{ContentForm, Message, Settings, SignerCount};
use der::Element;
use message::read_within;
use rules::{find_signer, first_broken};

/// The longest file.
const MOST: usize = 65_535;

/// How many levels a file may have.
const LEVELS: u8 = 32;

/// The settings of a file.
const SETTINGS: Settings = Settings {
    signers: SignerCount::AtLeastOne,
    content: ContentForm::Any,
};

/// The place of the first rule of attributes that a file breaks.
fn broken_rule(file: &[u8], message: &Message) -> Option<usize>
    ensures { (f : File) → Lies file.now message.now f → result ≡ broken_rule_of f }
{
    let content_type = Element {
        bytes: file,
        span: message.info.kind,
    };
    first_broken(message.signers.inside(file), content_type.whole())
}

/// Where the parts lie of a file that is accepted.
fn accept(file: &[u8]) -> Result<Message, Refusal>
    ensures { MatchResult result (AcceptedAt file.now) (RefusedFile file.now) }
{
    let message = read_within(file, SETTINGS, LEVELS)?;
    match broken_rule(file, &message) {
        Some(place) => Err(Refusal::Rule(place)),
        None => Ok(message),
    }
}

// A buffer and a length, and no slice: that is how callers hand over a file.

/// Where the parts lie of the file, the first `n` bytes of the buffer; or the first reason why it is refused.
pub fn open_file(buffer: &[u8], n: usize) -> Result<Message, Refusal>
    ensures { MatchResult result (OpensAt buffer.now n) (Shut buffer.now n) }
{
    if n == 0 || n > MOST || n > buffer.len() {
        return Err(Refusal::Length);
    }
    accept(&buffer[0..n])
}

/// The same, with where one of its signers lies.
pub fn open_signer(buffer: &[u8], n: usize, signer: usize) -> Result<Opened, Refusal>
    ensures { MatchResult result (SignerOpened buffer.now n signer) (Refused buffer.now n signer) }
{
    let message = open_file(buffer, n)?;
    let signers = message.signers.inside(&buffer[0..n]);
    let signer = find_signer(signers, signer).ok_or(Refusal::NoSigner)?;
    Ok(Opened { message, signer })
}
