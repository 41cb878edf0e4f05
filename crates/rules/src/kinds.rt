//! Kinds of attributes, and forms of signers.

/// The attribute types that the rules speak of.
#[derive(Clone, Copy)]
pub enum AttributeKind {
    ContentType,
    MessageDigest,
    SigningCertificate,
    SigningCertificateV2,
    SignaturePolicy,
    SignatureTimeStamp,
    CertificateReferences,
    RevocationReferences,
    CertificateValues,
    RevocationValues,
    CompleteTimeStamp,
    ReferencesTimeStamp,
    ArchiveStamp,
}

/// What a signature is good for, from the least to the most.
#[derive(Clone, Copy)]
pub enum Form {
    /// Basic.
    B,
    /// With a time stamp on the signature.
    T,
    /// T with references to all certificates and revocations.
    C,
    /// C with values, or with a time stamp on C or on its references.
    X,
    /// With an archive stamp.
    A,
}
