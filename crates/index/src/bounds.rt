//! The entries of an index, of which so many may stand in a list.
ghost use Rattle.std.specs.Prelude.{◌≡◌, ℕ, ◌≤◌, length, Some};
ghost use Rattle.der.specs.Spans.{part};
ghost use Rattle.der.specs.Trees.{Valid};
ghost use Rattle.limits.specs.Past.{entries_past};
ghost use Rattle.stamp_model.specs.Indexes.{Index, index_tree, index_bytes};
ghost use Rattle.index.specs.Limits.{first_too_many_entry_of, first_past_entry};
ghost use Rattle.index.specs.Places.{index_at};

use crate::located::IndexParts;
use fields::Entries;
use limits::{MOST_ENTRIES, too_many};

/// The place of the first entry too many of a list.
fn find_in_list(file: &[u8], entries: Entries) -> Option<usize>
    ensures { result ≡ entries_past file.now (Some entries) }
{
    too_many(entries.inside(file), MOST_ENTRIES)
}

/// The place of the first entry too many in the lists, in reading order.
fn find_in_lists(file: &[u8], parts: &IndexParts) -> Option<usize>
    ensures { result ≡ first_past_entry file.now parts.now }
{
    find_in_list(file, parts.certificates)
        .or_else(|| find_in_list(file, parts.revocations))
        .or_else(|| find_in_list(file, parts.attributes))
}

/// The place of the first entry too many of an index, in reading order; none where every list has at most 64.
/// `parts` says where the lists lie.
pub fn first_too_many_entry(file: &[u8], parts: &IndexParts) -> Option<usize>
    ensures computed { result ≡ first_past_entry file.now parts.now }
    ensures meaning { (x : Index) (levels at end : ℕ) → Valid (index_tree x) levels → end ≤ length file.now
        → part file.now at end ≡ index_bytes x → parts.now ≡ index_at at (index_tree x)
        → result ≡ first_too_many_entry_of at x }
{
    find_in_lists(file, parts)
}
