//! The form of a signer, told by its attributes.
ghost use Rattle.std.specs.Prelude.{◌≡◌, ℕ, ◌&&◌, ◌||◌, List};
ghost use Rattle.model.specs.Parts.{Attribute as Part};
ghost use Rattle.rules.specs.Attributes.{holds as Holds};
ghost use Rattle.rules.specs.Forms.{form_told_by};
ghost use Rattle.rules.specs.Standing.{Row, RowAt};
ghost use Rattle.rules.specs.declared.kinds.AttributeKind.TheVariants.{SignaturePolicy, CertificateReferences, RevocationReferences, CertificateValues, RevocationValues, CompleteTimeStamp, ReferencesTimeStamp};

use crate::attributes::holds;
use crate::kinds::{AttributeKind, Form};
use der::Reader;

/// Whether references to certificates and revocations stand among the attributes.
fn has_references(unsigned: Reader) -> bool
    ensures { (levels : ℕ) (ms : List Part) → RowAt levels unsigned.entry ms
        → result ≡ (Holds CertificateReferences ms && Holds RevocationReferences ms) }
{
    holds(unsigned, AttributeKind::CertificateReferences)
        & holds(unsigned, AttributeKind::RevocationReferences)
}

/// Whether what C refers to is stamped, or stands among the attributes itself.
fn has_extension(unsigned: Reader) -> bool
    ensures { (levels : ℕ) (ms : List Part) → RowAt levels unsigned.entry ms
        → result ≡ (Holds CompleteTimeStamp ms || (Holds ReferencesTimeStamp ms || (Holds CertificateValues ms && Holds RevocationValues ms))) }
{
    let values = holds(unsigned, AttributeKind::CertificateValues)
        & holds(unsigned, AttributeKind::RevocationValues);
    holds(unsigned, AttributeKind::CompleteTimeStamp)
        | (holds(unsigned, AttributeKind::ReferencesTimeStamp) | values)
}

/// The highest form that holds of a signer with these unsigned attributes.
pub fn form_by(unsigned: Reader) -> Form
    ensures { (levels : ℕ) (ms : List Part) → RowAt levels unsigned.entry ms → result ≡ form_told_by ms }
{
    let stamped = holds(unsigned, AttributeKind::SignatureTimeStamp);
    let complete = stamped & has_references(unsigned);
    let extended = complete & has_extension(unsigned);
    if holds(unsigned, AttributeKind::ArchiveStamp) {
        Form::A
    } else if extended {
        Form::X
    } else if complete {
        Form::C
    } else if stamped {
        Form::T
    } else {
        Form::B
    }
}

/// Whether a signer with these signed attributes names a policy.
pub fn names_policy(signed: Reader) -> bool
    ensures { (levels : ℕ) (ms : List Part) → RowAt levels signed.entry ms → result ≡ Holds SignaturePolicy ms }
{
    holds(signed, AttributeKind::SignaturePolicy)
}
