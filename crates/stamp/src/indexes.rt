//! Indexes as a whole.
ghost use Rattle.std.specs.Result.{MatchResult};
ghost use Rattle.stamp.specs.Indexed.{IndexLies, NoIndex};

use der::{Reader, walk_first};
use index::{IndexParts, first_too_many_entry, read_index};
use message::MessageFault;

// Walked and read as `message::read_formed` does: a function for both would take the reading with its clauses, and be longer.

/// Where the parts lie of the index that the bytes are, with so many levels at hand; or what is at fault, from their start.
pub fn read_index_bytes(index: &[u8], levels: u8) -> Result<IndexParts, MessageFault>
    ensures { MatchResult result (IndexLies levels index.now) (NoIndex levels index.now) }
{
    walk_first(index, levels)?;
    let parts = read_index(Reader::new(index)).map_err(MessageFault::Field)?;
    match first_too_many_entry(index, &parts) {
        Some(place) => Err(MessageFault::Count(place)),
        None => Ok(parts),
    }
}
