//! Reading a message by its form.
ghost use Rattle.std.specs.Result.{MatchResult};
ghost use Rattle.message.specs.Formed.{FormedAt, WithinAt, Unformed, Faulty};

use crate::fault::MessageFault;
use cms::{Message, Settings, read_message};
use der::{Reader, walk_first};
use limits::first_too_many;

/// Where the parts lie of a message of the form that the settings want, with so many levels at hand.
pub fn read_formed(bytes: &[u8], settings: Settings, levels: u8) -> Result<Message, MessageFault>
    ensures { MatchResult result (FormedAt settings levels bytes.now) (Unformed settings levels bytes.now) }
{
    walk_first(bytes, levels)?;
    read_message(Reader::new(bytes), settings).map_err(MessageFault::Field)
}

/// The same of a message that also keeps the limits.
pub fn read_within(bytes: &[u8], settings: Settings, levels: u8) -> Result<Message, MessageFault>
    ensures { MatchResult result (WithinAt settings levels bytes.now) (Faulty settings levels bytes.now) }
{
    let message = read_formed(bytes, settings, levels)?;
    match first_too_many(bytes, &message) {
        Some(place) => Err(MessageFault::Count(place)),
        None => Ok(message),
    }
}
