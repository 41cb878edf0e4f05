//! Files that are opened: accepted with where their parts lie, or refused for exactly one reason; and `read`,
//! which tells a signer's form.
#![tactic(auto)]

mod answers;
mod gate;
mod laws;
mod numbering;
mod opened;
mod reading;
mod refusal;

pub use answers::Reading;
pub use gate::{open_file, open_signer};
pub use laws::laws_hold;
pub use opened::Opened;
pub use reading::read;
pub use refusal::Refusal;
