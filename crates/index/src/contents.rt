//! The elements in a field, and the entries of an index.
ghost use Rattle.std.specs.Prelude.{◌≡◌, ℕ, ◌≤◌, List, length, Some};
ghost use Rattle.der.specs.Spans.{part};
ghost use Rattle.der.specs.Trees.{Valid};
ghost use Rattle.stamp_model.specs.Indexes.{Index, index_tree, index_bytes};
ghost use Rattle.index.specs.Places.{index_at};
ghost use Rattle.index.specs.Standing.{StandLists, IsIn, AreEntries, entry_trees};

use crate::elements::{ElementLists, Elements};
use crate::located::IndexParts;
use der::Reader;
use fields::Entries;

impl<'a> Elements<'a> {
    /// Those in a field of the file; none where it is not there.
    pub fn in_field(file: &'a [u8], field: Option<Entries>) -> Elements<'a>
        ensures { IsIn file.now field result }
    {
        match field {
            None => Elements {
                reader: Reader {
                    bytes: file,
                    at: 0,
                    end: 0,
                },
                count: 0,
            },
            Some(entries) => Elements {
                reader: entries.inside(file),
                count: entries.count,
            },
        }
    }
}

impl IndexParts {
    /// The entries of the index, list by list, in the bytes in which the index lies.
    pub fn entries<'a>(&self, file: &'a [u8]) -> ElementLists<'a>
        ensures computed { AreEntries file.now self.now result }
        ensures meaning { (x : Index) (levels at end : ℕ) → Valid (index_tree x) levels → end ≤ length file.now
            → part file.now at end ≡ index_bytes x → self.now ≡ index_at at (index_tree x)
            → StandLists result (entry_trees x) }
    {
        ElementLists {
            certificates: Elements::in_field(file, Some(self.certificates)),
            revocations: Elements::in_field(file, Some(self.revocations)),
            attributes: Elements::in_field(file, Some(self.attributes)),
        }
    }
}
