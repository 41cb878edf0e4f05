//! Reading a file.
ghost use Rattle.std.specs.Prelude.{◌≡◌, ℕ, MatchResult};
ghost use Rattle.model.specs.Files.{File};
ghost use Rattle.model.specs.Parts.{Signer as Person};
ghost use Rattle.rules.specs.Signers.{SignerThere};
ghost use Rattle.message.specs.Lies.{Lies, entries_count};
ghost use Rattle.archive.specs.Outcome.{Served, Refused, reading_of};

use crate::answers::Reading;
use crate::gate::open_signer;
use crate::opened::Opened;
use crate::refusal::Refusal;
use fields::Entries;
use rules::{form_of, has_policy};

/// How many entries a list has; an absent one has none.
fn count_of(list: Option<Entries>) -> usize
    ensures { result ≡ entries_count list }
{
    list.map_or(0, |entries| entries.count)
}

/// What is told of a signer of a file.
fn tell(file: &[u8], opened: &Opened) -> Reading
    ensures { (f : File) (levels p : ℕ) (s : Person) → Lies file.now opened.now.message f → SignerThere levels file.now opened.now.signer p s
        → result ≡ reading_of f s }
{
    let Opened { message, signer } = *opened;
    Reading {
        form: form_of(file, signer),
        policy: has_policy(file, signer),
        signers: message.signers.count,
        certificates: count_of(message.certificates),
        revocations: count_of(message.revocations),
    }
}

// A buffer and a length, and no slice: that is how callers hand over a file.

/// The form and the policy of a signer of the file, the first `n` bytes of the buffer, and the counts of the file;
/// or the first reason why the file is refused. Nothing is written.
pub fn read(buffer: &[u8], n: usize, signer: usize) -> Result<Reading, Refusal>
    ensures { MatchResult result (Served buffer.now n signer) (Refused buffer.now n signer) }
{
    let opened = open_signer(buffer, n, signer)?;
    Ok(tell(&buffer[0..n], &opened))
}
