//! Attributes of a signer, looked through one by one.
ghost use Rattle.std.specs.Prelude.{◌≡◌, ℕ, not, ◌&&◌, List, [], length};
ghost use Rattle.std.specs.List.{AllByRecursion};
ghost use Rattle.model.specs.Parts.{Attribute as Part, attribute_tree, row_of};
ghost use Rattle.model.specs.Shapes.{AttributeShape};
ghost use Rattle.rules.specs.Attributes.{holds as Holds, lacks as Lacks, names, is_among, again, one_value, is_content_type, faulty_signed, first_faulty, first_with, misplaced};
ghost use Rattle.rules.specs.Kinds.{signed_kinds, unsigned_kinds};
ghost use Rattle.der.specs.Trees.{Tree, encode, tag_of};
ghost use Rattle.fields.specs.Reads.{is};
ghost use Rattle.model.specs.Parts.{row};
ghost use Rattle.rules.specs.Standing.{Row, Trees as At, single_at, There, RowAt, AreValues};

use crate::kinds::AttributeKind;
use cms::Attribute;
use der::{Element, Reader, Span};
use fields::{Entries, Run};

/// Whether an attribute of the type stands among those from the reader's offset to its end.
pub(crate) fn holds(attributes: Reader, kind: AttributeKind) -> bool
    ensures { (levels : ℕ) (ms : List Part) → RowAt levels attributes.entry ms → result ≡ Holds kind ms }
{
    Run::<Attribute>::of(attributes).any(|attribute| kind.names(attribute.name(attributes.bytes)))
}

/// Whether the signed attributes lack one that has to stand there.
pub(crate) fn lacks(signed: Reader) -> bool
    ensures { (levels : ℕ) (ms : List Part) → RowAt levels signed.entry ms → result ≡ Lacks ms }
{
    let certificate = holds(signed, AttributeKind::SigningCertificate)
        | holds(signed, AttributeKind::SigningCertificateV2);
    !holds(signed, AttributeKind::ContentType)
        | (!holds(signed, AttributeKind::MessageDigest) | !certificate)
}

/// The types that stand only among signed attributes, each at most once.
const SIGNED_KINDS: [AttributeKind; 5] = [
    AttributeKind::ContentType,
    AttributeKind::MessageDigest,
    AttributeKind::SigningCertificate,
    AttributeKind::SigningCertificateV2,
    AttributeKind::SignaturePolicy,
];

/// The types that stand only among unsigned attributes.
const UNSIGNED_KINDS: [AttributeKind; 8] = [
    AttributeKind::SignatureTimeStamp,
    AttributeKind::CertificateReferences,
    AttributeKind::RevocationReferences,
    AttributeKind::CertificateValues,
    AttributeKind::RevocationValues,
    AttributeKind::CompleteTimeStamp,
    AttributeKind::ReferencesTimeStamp,
    AttributeKind::ArchiveStamp,
];

/// Whether the type is one of these.
fn is_one_of(kinds: &[AttributeKind], name: &[u8]) -> bool
    ensures { result ≡ is_among kinds.now name.now }
{
    kinds.iter().any(|kind| kind.names(name))
}

/// Whether an attribute of this kind stands a second time, if the name is the kind's.
fn repeats(before: Reader, name: &[u8], kind: AttributeKind) -> bool
    ensures { (levels : ℕ) (ms : List Part) → RowAt levels before.entry ms → result ≡ (names kind name.now && Holds kind ms) }
{
    kind.names(name) & holds(before, kind)
}

/// Whether an attribute with this type stands a second time, where it may stand once.
pub(crate) fn stands_again(before: Reader, name: &[u8]) -> bool
    ensures { (levels : ℕ) (ms : List Part) → RowAt levels before.entry ms → result ≡ again signed_kinds ms name.now }
{
    SIGNED_KINDS.iter().any(|kind| repeats(before, name, *kind))
}

/// Where the one value of an attribute lies; none where there are more.
fn single_value(file: &[u8], values: Entries) -> Option<Span>
    ensures { (levels : ℕ) (vs : List Tree) → AreValues levels file.now values vs
        → result ≡ single_at values.field.body vs }
{
    if values.count != 1 {
        return None;
    }
    let value = values.inside(file).next().ok()?;
    Some(value.span)
}

/// Whether the one value of a content-type attribute fails to be the file's content type, byte for byte.
fn lacks_content_type(file: &[u8], values: Entries, content_type: &[u8]) -> bool
    ensures { (levels : ℕ) (vs : List Tree) (expected : Tree) → AreValues levels file.now values vs
        → content_type.now ≡ encode expected → result ≡ not (one_value (is_content_type expected) vs) }
{
    let Some(span) = single_value(file, values) else {
        return true;
    };
    let value = Element { bytes: file, span };
    value.whole() != content_type
}

/// Whether the one value of a message-digest attribute fails to be an octet string.
fn lacks_octets(file: &[u8], values: Entries) -> bool
    ensures { (levels : ℕ) (vs : List Tree) → AreValues levels file.now values vs
        → result ≡ not (one_value (λ v. is 4 (tag_of v)) vs) }
{
    match single_value(file, values) {
        None => true,
        Some(value) => value.tag != 0x04,
    }
}

/// Whether an attribute among the signed ones breaks a rule.
fn is_faulty_signed(signed: Reader, attribute: &Attribute, content_type: &[u8]) -> bool
    ensures { (levels below : ℕ) (file : List ℕ) (ms : List Part) (a : Part) (expected : Tree) → signed.entry.bytes.now ≡ file
        → Row levels file signed.entry.at attribute.now.whole.start ms → There below file attribute.now a
        → content_type.now ≡ encode expected → result ≡ faulty_signed expected ms a }
{
    let before = Reader {
        end: attribute.whole.start,
        ..signed
    };
    let name = attribute.name(signed.bytes);
    let content_type = AttributeKind::ContentType.names(name)
        & lacks_content_type(signed.bytes, attribute.values, content_type);
    let digest = AttributeKind::MessageDigest.names(name)
        & lacks_octets(signed.bytes, attribute.values);
    is_one_of(&UNSIGNED_KINDS, name) | (stands_again(before, name) | (content_type | digest))
}

/// The place of the first signed attribute that breaks a rule.
pub(crate) fn first_faulty_signed(signed: Reader, content_type: &[u8]) -> Option<usize>
    ensures { (levels : ℕ) (ms : List Part) (expected : Tree) → RowAt levels signed.entry ms
        → content_type.now ≡ encode expected → result ≡ first_faulty (faulty_signed expected) [] signed.entry.at ms }
{
    for attribute in Run::<Attribute>::of(signed) {
        if is_faulty_signed(signed, &attribute, content_type) {
            return Some(attribute.whole.start);
        }
    }
    None
}

/// The place of the first unsigned attribute that may stand only among signed ones.
pub(crate) fn first_misplaced(unsigned: Reader) -> Option<usize>
    ensures { (levels : ℕ) (ms : List Part) → RowAt levels unsigned.entry ms
        → result ≡ first_with misplaced unsigned.entry.at ms }
{
    Run::<Attribute>::of(unsigned)
        .find(|attribute| is_one_of(&SIGNED_KINDS, attribute.name(unsigned.bytes)))
        .map(|attribute| attribute.whole.start)
}
