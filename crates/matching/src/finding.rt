//! The entries of an index, one by one against the digests of a file's elements.
ghost use Rattle.std.specs.Prelude.{◌≡◌, ℕ, ◌≤◌, List, map};
ghost use Rattle.der.specs.Trees.{Tree, body_of, encode};
ghost use Rattle.stamp_model.specs.Indexes.{Index, entries_for};
ghost use Rattle.index.specs.Standing.{Few, Stand, StandLists, encoded_by, entry_trees};
ghost use Rattle.matching.specs.Lists.{digests_in};
ghost use Rattle.matching.specs.Unmatched.{first_missing_of, in_list, first_unmatched_of};

use crate::digests::Digests;
use crate::unmatched::Unmatched;
use digest::interface::Digest;
use index::{ElementLists, Elements};
use stamp_model::ListName;

/// The number of the first entry that is none of the digests.
fn first_missing(digests: &Digests, mut entries: Elements) -> Option<usize>
    ensures { (ts : List Tree) → Stand entries.entry ts → result ≡ first_missing_of (digests_in digests.now) 0 (map body_of ts) }
{
    entries.position(|entry| !digests.holds(entry.contents()))
}

/// The first entry of one list that no element of that list of the file has the digest of.
fn find_in_list<G: Digest>(
    list: ListName,
    elements: Elements,
    entries: Elements,
) -> Option<Unmatched>
    requires { elements.count ≤ 64 }
    ensures { (ts us : List Tree) → Stand elements.entry ts → Stand entries.entry us
        → result ≡ in_list list (first_missing_of (map G.value (map encode ts)) 0 (map body_of us)) }
{
    let digests = Digests::of::<G>(elements);
    let entry = first_missing(&digests, entries)?;
    Some(Unmatched { list, entry })
}

/// The first entry that no element of its list has the digest of, list by list.
/// The elements stand in a file, the entries in the bytes of an index.
pub fn first_unmatched<G: Digest>(lists: ElementLists, entries: ElementLists) -> Option<Unmatched>
    requires { Few lists }
    ensures { (trees : ListName → List Tree) (x : Index) → StandLists lists.entry trees → StandLists entries.entry (entry_trees x)
        → result ≡ first_unmatched_of G.value (encoded_by trees) x }
{
    // By `or_else` and closures the proof did not close: they are generic here, and promise on a premise.
    let certificates = find_in_list::<G>(
        ListName::Certificates,
        lists.certificates,
        entries.certificates,
    );
    if let Some(unmatched) = certificates {
        return Some(unmatched);
    }
    let revocations = find_in_list::<G>(
        ListName::Revocations,
        lists.revocations,
        entries.revocations,
    );
    if let Some(unmatched) = revocations {
        return Some(unmatched);
    }
    find_in_list::<G>(ListName::Attributes, lists.attributes, entries.attributes)
}
