//! The content of a file that is read.
ghost use Rattle.std.specs.Prelude.{◌≡◌, ℕ};
ghost use Rattle.der.specs.Trees.{Valid};
ghost use Rattle.cms.specs.declared.settings.Settings.{Settings};
ghost use Rattle.cms.specs.Places.{message_at};
ghost use Rattle.model.specs.Files.{File, file_tree, file_bytes};
ghost use Rattle.model.specs.Shapes.{Shape};
ghost use Rattle.content.specs.Contents.{content_bytes, content_in};
ghost use Rattle.content.specs.Sources.{Found, Served};

use crate::contents::FileContent;
use crate::segmented::Segmented;
use cms::{Content, Message};
use digest::part::Part;
use digest::plain::Plain;
use digest::refusal::Refusal;

/// The source of the content that lies there, if there is any. Refuses more than 8,388,608 bytes.
fn source_of<'a>(file: &'a [u8], content: Content) -> Result<Option<FileContent<'a>>, Refusal>
    ensures { Found (content_in file.now content) result }
{
    match content {
        Content::Detached => Ok(None),
        Content::Plain { octets, .. } => {
            let part = Part::Buffer {
                from: octets.body,
                to: octets.end,
            };
            let source = Plain::over_part(file, &[], part)?;
            Ok(Some(FileContent::Plain(source)))
        }
        Content::Segmented { segments, .. } => {
            let source = Segmented::over(segments.inside(file))?;
            Ok(Some(FileContent::Segmented(source)))
        }
    }
}

/// The source of a file's content; none where the file is detached. `message` says where the content lies.
/// Refuses more than 8,388,608 bytes, which no file has.
pub fn content_of<'a>(file: &'a [u8], message: &Message) -> Result<Option<FileContent<'a>>, Refusal>
    ensures computed { Found (content_in file.now message.now.info.content) result }
    ensures meaning { (settings : Settings) (f : File) (levels : ℕ) → Shape settings f → Valid (file_tree f) levels
        → file.now ≡ file_bytes f → message.now ≡ message_at 0 (file_tree f)
        → Served (content_bytes f.content) result }
{
    source_of(file, message.info.content)
}
