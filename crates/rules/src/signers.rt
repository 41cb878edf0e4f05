//! Signers, looked through one by one.
ghost use Rattle.std.specs.Prelude.{◌≡◌, ℕ, List, Option};
ghost use Rattle.der.specs.Trees.{Tree, encode};
ghost use Rattle.model.specs.Parts.{Attribute as Part, Signer as Person, unsigned_tree};
ghost use Rattle.rules.specs.Attributes.{broken_told_by, first_broken_of, first_misplaced_of};
ghost use Rattle.rules.specs.Forms.{form_of, has_policy_of};
ghost use Rattle.rules.specs.Signers.{FieldThere, SignerThere, Signers, signer_number};
ghost use Rattle.rules.specs.Offsets.{inside as in_tree};

use crate::attributes::{first_faulty_signed, first_misplaced, lacks};
use crate::forms::{form_by, names_policy};
use crate::kinds::Form;
use cms::Signer;
use der::Reader;
use fields::{Entries, Run};

/// The place of the first unsigned attribute that may stand only among signed ones, if the field is there.
fn find_misplaced(file: &[u8], unsigned: Option<Entries>) -> Option<usize>
    ensures { (levels p q : ℕ) (u : Option (List Part)) → FieldThere levels file.now p (λ ms. in_tree q (unsigned_tree ms)) unsigned u → result ≡ first_misplaced_of q u }
{
    first_misplaced(unsigned?.inside(file))
}

// `SignerThere` is a premise of three promises here: in a type it would be asked of callers.

/// The place of the first rule that a signer's attributes break: the signer itself where one is lacking.
fn broken_by(file: &[u8], signer: Signer, content_type: &[u8]) -> Option<usize>
    ensures { (levels p : ℕ) (s : Person) (expected : Tree) → SignerThere levels file.now signer p s
        → content_type.now ≡ encode expected → result ≡ broken_told_by expected p s }
{
    let signed = signer.signed.inside(file);
    if lacks(signed) {
        return Some(signer.whole.start);
    }
    if let Some(place) = first_faulty_signed(signed, content_type) {
        return Some(place);
    }
    find_misplaced(file, signer.unsigned)
}

/// The form of a signer.
pub fn form_of(file: &[u8], signer: Signer) -> Form
    ensures { (levels p : ℕ) (s : Person) → SignerThere levels file.now signer p s → result ≡ form_of s }
{
    match signer.unsigned {
        None => Form::B,
        Some(entries) => form_by(entries.inside(file)),
    }
}

/// Whether a signer names a policy.
pub fn has_policy(file: &[u8], signer: Signer) -> bool
    ensures { (levels p : ℕ) (s : Person) → SignerThere levels file.now signer p s → result ≡ has_policy_of s }
{
    names_policy(signer.signed.inside(file))
}

/// The place of the first broken rule among signers from the reader's offset to its end.
pub fn first_broken(signers: Reader, content_type: &[u8]) -> Option<usize>
    ensures { (levels : ℕ) (ss : List Person) (expected : Tree) → Signers levels signers.entry.bytes.now signers.entry.at signers.entry.end ss
        → content_type.now ≡ encode expected → result ≡ first_broken_of expected signers.entry.at ss }
{
    for signer in Run::<Signer>::of(signers) {
        if let Some(place) = broken_by(signers.bytes, signer, content_type) {
            return Some(place);
        }
    }
    None
}

/// Where the signer of this number lies, counted from 0.
pub fn find_signer(signers: Reader, number: usize) -> Option<Signer>
    ensures { (levels : ℕ) (ss : List Person) → Signers levels signers.entry.bytes.now signers.entry.at signers.entry.end ss
        → result ≡ signer_number number signers.entry.at ss }
{
    Run::<Signer>::of(signers).nth(number)
}
