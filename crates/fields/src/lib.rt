//! The fields of a constructed element, read one after another: each gives what it found, or the place where it breaks off.
//!
//! How bytes are read is defined in `specs/Reads.antt`. What is meant is a rule on trees, in `specs/Rules.antt`:
//! the place of the first field that is missing, wrong or surplus. `proofs/Links.antt` joins the two, way by way.
//!
//! The error of each reader is that place alone, an offset and no code: there is nothing more to say of a break, and a
//! caller names the case that it is, as by `map_err(MessageFault::Field)`.
#![tactic(auto)]

mod elements;
mod entries;
mod inside;
mod kinds;
mod located;
mod run;
mod tag_set;

pub use elements::{
    enter, expect, expect_identifier, finish, read_allowed, read_any, read_in_set, read_number,
    read_optional, read_single, read_whole,
};
pub use entries::{Entry, count, count_some, read_list, read_maybe_list};
pub use inside::Inside;
pub use kinds::{Anything, Octets};
pub use located::{Entries, Number};
pub use run::{Located, Run};
pub use tag_set::TagSet;
