//! The elements of a file's lists, handed out one by one as parts of its bytes.
#![tactic(auto)]

mod handing;
mod item;
mod items;

pub use item::{Handed, Item, Kind};
pub use items::Items;
