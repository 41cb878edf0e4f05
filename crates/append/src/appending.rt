//! A run of elements appended to a list, and the length that the file then has.
ghost use Rattle.std.specs.Prelude.{◌≡◌, length};
ghost use Rattle.areas.specs.Pieces.{joined};
ghost use Rattle.model.specs.Files.{File, file_bytes};
ghost use Rattle.grow.specs.Changes.{Changed, SameBuffer, fitting, file_in};
ghost use Rattle.append.specs.Appended.{Addition, addition_bytes, with_more};
ghost use Rattle.append.specs.Listed.{FileAt, Joins};

use crate::list::GrowingList;
use crate::places::place_of;
use cms::Message;
use grow::{Full, GrowingFile};

/// Appends a run of elements to a list of the file that the record tells of; answers the new length of the file.
/// The list's field is made in its place if it is not there.
/// Refuses a new file of more than 65,535 bytes, and then one that passes the buffer, which then is as it was.
pub fn append_run(
    file: &mut GrowingFile,
    message: &Message,
    list: GrowingList,
    run: &[&[u8]],
) -> Result<usize, Full>
    requires file { (f : File) × (a : Addition) × FileAt (file_in file.old) message.now f × Joins a list message.now f }
    ensures same_buffer { SameBuffer file.old file.new }
    ensures changed { (f : File) (a : Addition) → FileAt (file_in file.old) message.now f → Joins a list.entry message.now f
        → joined run.now ≡ addition_bytes a
        → Changed file.old file.new result (file_bytes (with_more a f)) }
{
    place_of(list, message).append(file, run)
}

/// The length of the file, in a buffer of `room` bytes, with elements of `size` bytes appended to a list.
/// Refuses what `append_run` would refuse; nothing is written.
pub fn measure_run(
    file: &[u8],
    room: usize,
    message: &Message,
    list: GrowingList,
    size: usize,
) -> Result<usize, Full>
    requires file { (f : File) × (a : Addition) × FileAt file.now message.now f × Joins a list message.now f }
    ensures { (f : File) (a : Addition) → FileAt file.now message.now f → Joins a list.entry message.now f
        → length (addition_bytes a) ≡ size
        → result ≡ fitting room (length (file_bytes (with_more a f))) }
{
    place_of(list, message).measure(file, room, size)
}
