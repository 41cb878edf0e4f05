//! Files that are opened for a call: as crate `archive` opens them, with the one refusal of all later calls.
#![tactic(auto)]

mod gate;
mod laws;
mod numbering;
mod refusal;

pub use archive::{Opened, Reading};
pub use gate::{open_file, open_signer, read};
pub use laws::laws_hold;
pub use refusal::Refusal;
