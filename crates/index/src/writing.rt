//! Indexes, written.
ghost use Rattle.std.specs.Prelude.{◌≡◌, ℕ, ◌+◌, ◌*◌, ◌≤◌, List, ◌++◌, length};
ghost use Rattle.der.specs.Trees.{Tree, encode, encodes, none};
ghost use Rattle.model.specs.Parts.{maybe};
ghost use Rattle.stamp_model.specs.declared.lists.ListName.{ListName};
ghost use Rattle.stamp_model.specs.Algorithms.{algorithm_tree};
ghost use Rattle.stamp_model.specs.Indexes.{written_for, index_bytes, index_of};
ghost use Rattle.index.specs.Entries.{entries_bytes, list_tree, lists_bytes};
ghost use Rattle.index.specs.Puts.{Put, Written};
ghost use Rattle.index.specs.Sizes.{framed_size_of, list_size_of, algorithm_size_of, index_size};
ghost use Rattle.index.specs.Standing.{Few, Stand, StandLists, encoded_by};

use crate::elements::{ElementLists, Elements};
use crate::putting::{put, put_entry, put_header};
use crate::sizes::{contents_size, entries_size, framed_size, is_left_out};
use digest::interface::Digest;

/// Puts one entry for each element.
fn put_entries<G: Digest>(elements: Elements, area: &mut [u8], at: usize) -> usize
    requires { at + elements.count * framed_size_of G.size ≤ length area.old }
    ensures few { result ≤ at + elements.entry.count * framed_size_of G.size }
    ensures entries { (ts : List Tree) → Stand elements.entry ts → Put area.old area.new at (entries_bytes G.value ts) result }
{
    // As digests are put in `matching`: one function for both would take the writing as a closure over the area.
    let mut stop = at;
    for element in elements {
        stop = put_entry::<G>(area, stop, element.whole());
    }
    stop
}

/// Puts a list: one entry for each element.
fn put_list<G: Digest>(elements: Elements, area: &mut [u8], at: usize) -> usize
    requires { (elements.count ≤ 64) × (at + list_size_of G.size elements.count ≤ length area.old) }
    ensures few { result ≤ at + list_size_of G.size elements.entry.count }
    ensures list { (ts : List Tree) → Stand elements.entry ts → Put area.old area.new at (encode (list_tree G.value ts)) result }
{
    let body = put_header(area, at, 0x30, entries_size::<G>(elements.count));
    put_entries::<G>(elements, area, body)
}

/// Puts the algorithm for a digest of this name: nothing where the name is left out.
fn put_algorithm(area: &mut [u8], at: usize, name: &[u8]) -> usize
    requires { (length name.now ≤ 16) × (at + algorithm_size_of name.now ≤ length area.old) }
    ensures { Put area.old area.new at (encodes (maybe algorithm_tree (written_for name.now) none)) result }
{
    if is_left_out(name) {
        return at;
    }
    let inside = put_header(area, at, 0x30, framed_size(name.len()));
    let body = put_header(area, inside, 0x06, name.len());
    put(area, body, name)
}

/// Puts the three lists.
fn put_lists<G: Digest>(lists: ElementLists, area: &mut [u8], at: usize) -> usize
    requires few { Few lists }
    requires room { at + (list_size_of G.size lists.certificates.count + (list_size_of G.size lists.revocations.count + list_size_of G.size lists.attributes.count)) ≤ length area.old }
    ensures { (trees : ListName → List Tree) → StandLists lists.entry trees → Put area.old area.new at (lists_bytes G.value trees) result }
{
    let revocations = put_list::<G>(lists.certificates, area, at);
    let attributes = put_list::<G>(lists.revocations, area, revocations);
    put_list::<G>(lists.attributes, area, attributes)
}

/// Writes the index of the elements to the front of the area, and answers how many bytes it has:
/// as many as `index_length` tells, for which the area has room. What is behind them stays.
pub fn write_index<G: Digest>(lists: ElementLists, area: &mut [u8]) -> usize
    requires few { Few lists }
    requires room { index_size G.size G.oid lists.certificates.count lists.revocations.count lists.attributes.count ≤ length area.old }
    ensures { (trees : ListName → List Tree) → StandLists lists.entry trees
        → Written (index_bytes (index_of G.value G.oid (encoded_by trees))) area.old area.new result }
{
    let contents = contents_size::<G>(
        lists.certificates.count,
        lists.revocations.count,
        lists.attributes.count,
    );
    let inside = put_header(area, 0, 0x30, contents);
    let behind = put_algorithm(area, inside, G::identifier());
    put_lists::<G>(lists, area, behind)
}
