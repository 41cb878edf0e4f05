//! Bytes read from hexadecimal digits.
#![tactic(auto)]

mod laws;
mod reading;

pub use laws::laws_hold;
pub use reading::read_hex;
