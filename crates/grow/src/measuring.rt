//! New lengths, answered before anything is written.
ghost use Rattle.std.specs.Prelude.{◌≡◌, ℕ, List, ◌++◌, length};
ghost use Rattle.areas.specs.Pieces.{joined};
ghost use Rattle.der.specs.Trees.{framed};
ghost use Rattle.grow.specs.Frames.{Frame, plug};
ghost use Rattle.grow.specs.Changes.{IsPath, Encloses, short, fitting};

use crate::full::Full;
use crate::headers::header_at;
use der::header_size;

/// The most bytes of a file.
const MOST: usize = 65535;

/// How many bytes the pieces have together, as many as a file may have.
pub fn joined_length(pieces: &[&[u8]]) -> Result<usize, Full>
    ensures { result ≡ short (length (joined pieces.now)) }
{
    let mut sum = 0;
    for piece in pieces {
        if piece.len() > MOST - sum {
            return Err(Full::TooLong);
        }
        sum += piece.len();
    }
    Ok(sum)
}

/// The length of the file once `more` bytes stand behind the contents of the innermost element at `path`, in a buffer of `room` bytes.
/// Refuses what `append` would refuse.
pub fn measure_append(file: &[u8], room: usize, path: &[usize], more: usize) -> Result<usize, Full>
    requires path { IsPath file.now path.now }
    ensures { (fs : List Frame) (body new : List ℕ) → Encloses file.now path.now fs body → length new ≡ more
        → result ≡ fitting room (length (plug fs (body ++ new))) }
{
    if file.len() > MOST || more > MOST {
        return Err(Full::TooLong);
    }
    let mut grow = more;
    for place in path {
        let header = header_at(file, *place);
        let size = header.size + grow;
        if size > MOST {
            return Err(Full::TooLong);
        }
        grow += header_size(size) - header.head;
    }
    let length = file.len() + grow;
    if length > MOST {
        Err(Full::TooLong)
    } else if length > room {
        Err(Full::NoRoom)
    } else {
        Ok(length)
    }
}

/// The length of the file once a new element with `more` bytes of contents stands in the innermost element at `path`.
/// Refuses what `insert_field` would refuse.
pub fn measure_field(file: &[u8], room: usize, path: &[usize], more: usize) -> Result<usize, Full>
    requires path { IsPath file.now path.now }
    ensures { (fs : List Frame) (pre post new : List ℕ) (tag : ℕ) → Encloses file.now path.now fs (pre ++ post) → length new ≡ more
        → result ≡ fitting room (length (plug fs (pre ++ (framed tag new ++ post)))) }
{
    if more > MOST {
        return Err(Full::TooLong);
    }
    measure_append(file, room, path, header_size(more) + more)
}
