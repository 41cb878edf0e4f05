//! Signed messages: where their parts lie, or the first field that is missing, wrong or surplus.
//!
//! `read_message` reads a message as its settings want it; `read_attribute` and `read_signer` read one entry
//! of the lists that it finds. What a message is made of is defined in `specs/Grammar.antt`, and where
//! its parts lie in `specs/Places.antt`, both on trees of elements; how its bytes are read, in `specs/Records.antt`.
#![tactic(auto)]

mod attributes;
mod contents;
mod lists;
mod located;
mod messages;
mod samples;
mod settings;
mod signers;

pub use attributes::read_attribute;
pub use fields::{Entries, Number};
pub use located::{Attribute, Content, ContentInfo, Message, Signer};
pub use messages::read_message;
pub use samples::samples_hold;
pub use settings::{ContentForm, Settings, SignerCount};
pub use signers::read_signer;
