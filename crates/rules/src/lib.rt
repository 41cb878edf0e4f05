//! Rules over a message that has its form: counts and their limits, attributes, and what form a signer has.
#![tactic(auto)]

mod attributes;
mod forms;
mod identifiers;
mod kinds;
mod letters;
mod signers;

pub use forms::{form_by, names_policy};
pub use kinds::{AttributeKind, Form};
pub use signers::{find_signer, first_broken, form_of, has_policy};
