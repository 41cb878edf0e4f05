//! The identifiers of attribute types.
ghost use Rattle.std.specs.Prelude.{◌≡◌};
ghost use Rattle.std.specs.Str.{bytes_eq};
ghost use Rattle.rules.specs.Kinds.{kind_bytes};

use crate::kinds::AttributeKind;

static CONTENT_TYPE: [u8; 9] = [0x2a, 0x86, 0x48, 0x86, 0xf7, 0x0d, 0x01, 0x09, 0x03];

static MESSAGE_DIGEST: [u8; 9] = [0x2a, 0x86, 0x48, 0x86, 0xf7, 0x0d, 0x01, 0x09, 0x04];

static SIGNING_CERTIFICATE: [u8; 11] = [
    0x2a, 0x86, 0x48, 0x86, 0xf7, 0x0d, 0x01, 0x09, 0x10, 0x02, 0x0c,
];

static SIGNING_CERTIFICATE_V2: [u8; 11] = [
    0x2a, 0x86, 0x48, 0x86, 0xf7, 0x0d, 0x01, 0x09, 0x10, 0x02, 0x2f,
];

static SIGNATURE_POLICY: [u8; 11] = [
    0x2a, 0x86, 0x48, 0x86, 0xf7, 0x0d, 0x01, 0x09, 0x10, 0x02, 0x0f,
];

static SIGNATURE_TIME_STAMP: [u8; 11] = [
    0x2a, 0x86, 0x48, 0x86, 0xf7, 0x0d, 0x01, 0x09, 0x10, 0x02, 0x0e,
];

static CERTIFICATE_REFERENCES: [u8; 11] = [
    0x2a, 0x86, 0x48, 0x86, 0xf7, 0x0d, 0x01, 0x09, 0x10, 0x02, 0x15,
];

static REVOCATION_REFERENCES: [u8; 11] = [
    0x2a, 0x86, 0x48, 0x86, 0xf7, 0x0d, 0x01, 0x09, 0x10, 0x02, 0x16,
];

static CERTIFICATE_VALUES: [u8; 11] = [
    0x2a, 0x86, 0x48, 0x86, 0xf7, 0x0d, 0x01, 0x09, 0x10, 0x02, 0x17,
];

static REVOCATION_VALUES: [u8; 11] = [
    0x2a, 0x86, 0x48, 0x86, 0xf7, 0x0d, 0x01, 0x09, 0x10, 0x02, 0x18,
];

static COMPLETE_TIME_STAMP: [u8; 11] = [
    0x2a, 0x86, 0x48, 0x86, 0xf7, 0x0d, 0x01, 0x09, 0x10, 0x02, 0x19,
];

static REFERENCES_TIME_STAMP: [u8; 11] = [
    0x2a, 0x86, 0x48, 0x86, 0xf7, 0x0d, 0x01, 0x09, 0x10, 0x02, 0x1a,
];

static ARCHIVE_STAMP: [u8; 6] = [0x04, 0x00, 0x8d, 0x45, 0x02, 0x04];

impl AttributeKind {
    /// The contents of the type's identifier.
    pub fn identifier<'a>(self) -> &'a [u8]
        ensures { result.now ≡ kind_bytes self }
    {
        match self {
            AttributeKind::ContentType => &CONTENT_TYPE,
            AttributeKind::MessageDigest => &MESSAGE_DIGEST,
            AttributeKind::SigningCertificate => &SIGNING_CERTIFICATE,
            AttributeKind::SigningCertificateV2 => &SIGNING_CERTIFICATE_V2,
            AttributeKind::SignaturePolicy => &SIGNATURE_POLICY,
            AttributeKind::SignatureTimeStamp => &SIGNATURE_TIME_STAMP,
            AttributeKind::CertificateReferences => &CERTIFICATE_REFERENCES,
            AttributeKind::RevocationReferences => &REVOCATION_REFERENCES,
            AttributeKind::CertificateValues => &CERTIFICATE_VALUES,
            AttributeKind::RevocationValues => &REVOCATION_VALUES,
            AttributeKind::CompleteTimeStamp => &COMPLETE_TIME_STAMP,
            AttributeKind::ReferencesTimeStamp => &REFERENCES_TIME_STAMP,
            AttributeKind::ArchiveStamp => &ARCHIVE_STAMP,
        }
    }

    /// Whether an identifier with these contents is the type's.
    pub fn names(self, contents: &[u8]) -> bool
        ensures { result ≡ bytes_eq contents.now (kind_bytes self) }
    {
        contents == self.identifier()
    }
}
