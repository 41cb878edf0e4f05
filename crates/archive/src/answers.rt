//! What calls answer.
ghost use Rattle.std.specs.Prelude.{Some};
ghost use Rattle.archive.specs.Texts.{reading_text};

use rules::Form;
use std::fmt;

/// What is told of one signer, and how many there are in the file.
#[derive(Clone, Copy)]
pub struct Reading {
    pub form: Form,
    /// Whether the signer names a policy.
    pub policy: bool,
    pub signers: usize,
    pub certificates: usize,
    pub revocations: usize,
}

/// As `form T policy 1 signers 1 certificates 2 revocations 0`.
impl fmt::Display for Reading {
    ghost output = { λ r. Some (reading_text r) };

    fn fmt<W: fmt::Write>(&self, f: &mut fmt::Formatter<W>) -> fmt::Result {
        let Reading {
            form,
            policy,
            signers,
            certificates,
            revocations,
        } = *self;
        let policy = u8::from(policy);
        write!(
            f,
            "form {form} policy {policy} signers {signers} certificates {certificates} revocations {revocations}"
        )
    }
}
