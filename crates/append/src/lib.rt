//! Elements appended to the lists of a signed message, in place.
//!
//! `append_run` puts a run of elements behind what stands in a list; an absent field is made in its place.
//! `measure_run` answers the new length, or the refusal, with nothing written.
//! The file with more elements is defined in `specs/Appended.antt`, what stays true of it in `specs/Laws.antt`.
#![tactic(auto)]

mod appending;
mod laws;
mod list;
mod lists;
mod place;
mod places;

pub use appending::{append_run, measure_run};
pub use laws::laws_hold;
pub use list::GrowingList;
