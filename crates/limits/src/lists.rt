//! The lists of a message and of its signers.
ghost use Rattle.std.specs.Prelude.{◌≡◌, ℕ};
ghost use Rattle.der.specs.Trees.{Valid};
ghost use Rattle.cms.specs.declared.settings.Settings.{Settings};
ghost use Rattle.cms.specs.Places.{message_at};
ghost use Rattle.model.specs.Files.{File, file_tree, file_bytes};
ghost use Rattle.model.specs.Shapes.{Shape};
ghost use Rattle.rules.specs.Limits.{first_too_many_of};
ghost use Rattle.limits.specs.Past.{entries_past, attributes_past, signers_past, first_past};

use crate::counted::{find_past, place_left};
use cms::{Message, Signer, read_signer};
use fields::Entries;

/// The most entries of a list, other than that of the signers.
pub const MOST_ENTRIES: usize = 64;

/// The most signers of a message.
const MOST_SIGNERS: usize = 8;

/// The place of the first entry too many of a list; none where its field is not there.
fn find_in_list(file: &[u8], list: Option<Entries>) -> Option<usize>
    ensures { result ≡ entries_past file.now list }
{
    find_past(list?.inside(file), MOST_ENTRIES)
}

/// The place of the first attribute too many of a signer.
fn find_in_signer(file: &[u8], signer: Signer) -> Option<usize>
    ensures { result ≡ attributes_past file.now signer }
{
    find_in_list(file, Some(signer.signed)).or_else(|| find_in_list(file, signer.unsigned))
}

/// The place of the first signer past the limit, or of the first attribute too many of one before it.
fn find_in_signers(file: &[u8], signers: Entries, limit: usize) -> Option<usize>
    ensures { result ≡ signers_past limit file.now signers.field.body signers.field.end }
{
    let mut reader = signers.inside(file);
    for _ in 0..limit {
        let Ok(signer) = read_signer(&mut reader) else {
            return None;
        };
        if let Some(place) = find_in_signer(file, signer) {
            return Some(place);
        }
    }
    place_left(&reader)
}

/// The place of the first element too many in the lists of a message, in reading order.
fn find_in_message(file: &[u8], message: &Message) -> Option<usize>
    ensures { result ≡ first_past file.now message.now }
{
    find_in_list(file, message.certificates)
        .or_else(|| find_in_list(file, message.revocations))
        .or_else(|| find_in_signers(file, message.signers, MOST_SIGNERS))
}

/// The place of the first element too many of a file, in reading order; none where every list keeps its limit.
/// `message` says where the lists lie.
pub fn first_too_many(file: &[u8], message: &Message) -> Option<usize>
    ensures computed { result ≡ first_past file.now message.now }
    ensures meaning { (settings : Settings) (f : File) (levels : ℕ) → Shape settings f → Valid (file_tree f) levels
        → file.now ≡ file_bytes f → message.now ≡ message_at 0 (file_tree f)
        → result ≡ first_too_many_of f }
{
    find_in_message(file, message)
}
