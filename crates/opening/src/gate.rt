//! The tests that every call begins with, and reading.
ghost use Rattle.std.specs.Result.{MatchResult};
ghost use Rattle.archive.specs.Opened.{OpensAt, SignerOpened};
ghost use Rattle.archive.specs.Outcome.{Served};
ghost use Rattle.opening.specs.Outcome.{Shut, Refused};

use crate::refusal::Refusal;
use archive::{Opened, Reading};
use cms::Message;

// A buffer and a length, and no slice: that is how callers hand over a file.

/// Where the parts lie of the file, the first `n` bytes of the buffer; or the first reason why it is refused.
pub fn open_file(buffer: &[u8], n: usize) -> Result<Message, Refusal>
    ensures { MatchResult result (OpensAt buffer.now n) (Shut buffer.now n) }
{
    Ok(archive::open_file(buffer, n)?)
}

/// The same, with where one of its signers lies.
pub fn open_signer(buffer: &[u8], n: usize, signer: usize) -> Result<Opened, Refusal>
    ensures { MatchResult result (SignerOpened buffer.now n signer) (Refused buffer.now n signer) }
{
    Ok(archive::open_signer(buffer, n, signer)?)
}

/// The form and the policy of a signer of the file, the first `n` bytes of the buffer, and the counts of the file;
/// or the first reason why the file is refused. Nothing is written.
pub fn read(buffer: &[u8], n: usize, signer: usize) -> Result<Reading, Refusal>
    ensures { MatchResult result (Served buffer.now n signer) (Refused buffer.now n signer) }
{
    Ok(archive::read(buffer, n, signer)?)
}
