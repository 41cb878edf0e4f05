//! The digest of the content that a call reads.
ghost use Rattle.std.specs.Prelude.{◌≡◌, ℕ};
ghost use Rattle.cms.specs.declared.settings.Settings.{Settings};
ghost use Rattle.model.specs.Files.{File};
ghost use Rattle.message.specs.Formed.{Formed, LiesAt};
ghost use Rattle.content.specs.Contents.{content_in};
ghost use Rattle.imprint.specs.Contents.{given_bytes, content_for};
ghost use Rattle.imprint.specs.Digests.{digest_bytes_of, Digests, DigestsIn};

use crate::digests::ContentDigest;
use crate::fault::ContentFault;
use cms::Message;
use content::{FileContent, content_of};
use digest::digesting::digest_source;
use digest::interface::Digest;
use digest::source::Source;

impl ContentDigest {
    /// The bytes of the digest.
    pub fn as_slice(&self) -> &[u8]
        ensures { result.now ≡ digest_bytes_of self.now }
    {
        &self.bytes[..self.width]
    }
}

/// The digest of a source.
fn digest_of<G: Digest, S: Source>(source: &S) -> ContentDigest
    ensures { digest_bytes_of result ≡ G.value (S.bytes source.now) }
{
    let mut bytes = [0u8; 64];
    let _ = digest_source::<G, S>(source, &mut bytes);
    ContentDigest {
        bytes,
        width: G::width(),
    }
}

/// The digest of the content that is read: the file's own, or the given one exactly when the file is detached.
/// Refuses where both are there, or neither. `message` says where the content of the file lies.
pub fn content_digest<G: Digest, S: Source>(
    file: &[u8],
    message: &Message,
    given: Option<&S>,
) -> Result<ContentDigest, ContentFault>
    ensures computed { DigestsIn G.value (content_in file.now message.now.info.content) (given_bytes S.bytes given.entry) result }
    ensures meaning { (settings : Settings) (levels : ℕ) (f : File) → Formed settings levels file.now f → LiesAt message.now f
        → Digests G.value (content_for f.content (given_bytes S.bytes given.entry)) (given_bytes S.bytes given.entry) result }
{
    let own = content_of(file, message).map_err(|_| ContentFault::LongContent)?;
    match (own, given) {
        (None, None) => Err(ContentFault::NoContent),
        (None, Some(source)) => Ok(digest_of::<G, S>(source)),
        (Some(content), None) => Ok(digest_of::<G, FileContent>(&content)),
        (Some(_), Some(_)) => Err(ContentFault::TwoContents),
    }
}
