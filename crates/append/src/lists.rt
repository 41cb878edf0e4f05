//! A list inside a file, whose field may have to be made.
ghost use Rattle.std.specs.Prelude.{◌≡◌, ℕ, List, ◌++◌, length};
ghost use Rattle.areas.specs.Pieces.{joined};
ghost use Rattle.der.specs.Trees.{framed};
ghost use Rattle.grow.specs.Frames.{Frame, plug};
ghost use Rattle.grow.specs.Changes.{Changed, SameBuffer, fitting, file_in};
ghost use Rattle.append.specs.Listed.{ListAt, offsets};

use crate::place::Place;
use grow::{Full, GrowingFile, measure_append, measure_field};

impl Place {
    /// Puts the run behind what stands in the list; where its field is not there, it is made there.
    pub(crate) fn append(&self, file: &mut GrowingFile, run: &[&[u8]]) -> Result<usize, Full>
        requires list { (fs : List Frame) × (before : List ℕ) × (after : List ℕ) × (old : List ℕ)
            × ListAt self.now.there (file_in file.old) (offsets self.now.path) fs before self.now.tag after old }
        ensures same_buffer { SameBuffer file.old file.new }
        ensures changed { (fs : List Frame) (before after old : List ℕ)
            → ListAt self.now.there (file_in file.old) (offsets self.now.path) fs before self.now.tag after old
            → Changed file.old file.new result (plug fs (before ++ (framed self.now.tag (old ++ joined run.now) ++ after))) }
    {
        match self.path.as_slice() {
            path if self.there => file.append(path, run),
            [at, around @ ..] => file.insert_field(around, *at, self.tag, run),
            [] => unreachable(),
        }
    }

    /// The length of the file, in a buffer of `room` bytes, once `more` bytes stand behind those of the list.
    /// Refuses what `append` would refuse.
    pub(crate) fn measure(&self, file: &[u8], room: usize, more: usize) -> Result<usize, Full>
        requires list { (fs : List Frame) × (before : List ℕ) × (after : List ℕ) × (old : List ℕ)
            × ListAt self.now.there file.now (offsets self.now.path) fs before self.now.tag after old }
        ensures { (fs : List Frame) (before after old new : List ℕ)
            → ListAt self.now.there file.now (offsets self.now.path) fs before self.now.tag after old → length new ≡ more
            → result ≡ fitting room (length (plug fs (before ++ (framed self.now.tag (old ++ new) ++ after)))) }
    {
        match self.path.as_slice() {
            path if self.there => measure_append(file, room, path, more),
            [_, around @ ..] => measure_field(file, room, around, more),
            [] => unreachable(),
        }
    }
}
