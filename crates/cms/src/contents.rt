//! The content of a message and its type.
ghost use Rattle.std.specs.Prelude.{◌≡◌, IfOk, Ok};
ghost use Rattle.fields.specs.Reads.{Reads};
ghost use Rattle.cms.specs.declared.settings.ContentForm.TheVariants.{Any, TimeStampInfo};
ghost use Rattle.cms.specs.Records.{content_in, plain_in, info_in, info_of, info_stop};

use crate::located::{Content, ContentInfo};
use crate::settings::ContentForm;
use der::{Reader, Span};
use fields::{
    Entries, Inside, Octets, count, enter, expect, expect_identifier, finish, read_any,
    read_optional, read_single,
};

/// The content type of time-stamp tokens.
const TIME_STAMP_INFO: [u8; 11] = [
    0x2a, 0x86, 0x48, 0x86, 0xf7, 0x0d, 0x01, 0x09, 0x10, 0x01, 0x04,
];

/// The content in its field: one octet string, or one made of octet strings.
fn read_content(reader: &Reader, field: Span) -> Result<Content, usize>
    ensures { result ≡ content_in reader.now.bytes.now field }
{
    let mut inside = enter(reader, field);
    let octets = read_any(&mut inside)?;
    let content = match octets.tag {
        0x04 => Content::Plain { field, octets },
        0x24 => {
            let count = count::<Octets>(enter(&inside, octets))?;
            Content::Segmented {
                field,
                segments: Entries {
                    field: octets,
                    count,
                },
            }
        }
        _ => return Err(field.body),
    };
    finish(&inside)?;
    Ok(content)
}

/// The content type, and the content if there is any.
fn read_any_info(reader: &Reader, whole: Span) -> Result<ContentInfo, usize>
    ensures value { result ≡ info_in Any reader.now.bytes.now whole }
    ensures whole { IfOk result (λ info. info.whole ≡ whole) }
{
    let mut inside = enter(reader, whole);
    let kind = expect(&mut inside, 0x06)?;
    let content = match read_optional(&mut inside, 0xa0) {
        None => Content::Detached,
        Some(field) => read_content(&inside, field)?,
    };
    finish(&inside)?;
    Ok(ContentInfo {
        whole,
        kind,
        content,
    })
}

/// An element as it lies, whatever is inside.
#[derive(Clone, Copy)]
struct AsItLies;

impl Inside for AsItLies {
    type Parts = Span;

    ghost outcome = { λ _ _ whole. Ok whole };

    fn read(&self, _: &Reader, whole: Span) -> Result<Span, usize> {
        Ok(whole)
    }
}

/// One octet string in its field, and nothing more.
fn read_plain(reader: &Reader, field: Span) -> Result<Span, usize>
    ensures { result ≡ plain_in reader.now.bytes.now field }
{
    read_single(enter(reader, field), 0x04, &AsItLies)
}

/// The content of a time-stamp token.
fn read_stamp_info(reader: &Reader, whole: Span) -> Result<ContentInfo, usize>
    ensures value { result ≡ info_in TimeStampInfo reader.now.bytes.now whole }
    ensures whole { IfOk result (λ info. info.whole ≡ whole) }
{
    let mut inside = enter(reader, whole);
    let kind = expect_identifier(&mut inside, &TIME_STAMP_INFO)?;
    let field = expect(&mut inside, 0xa0)?;
    let octets = read_plain(&inside, field)?;
    finish(&inside)?;
    Ok(ContentInfo {
        whole,
        kind,
        content: Content::Plain { field, octets },
    })
}

/// The content info, as the setting wants it.
pub(crate) fn read_info(reader: &mut Reader, form: ContentForm) -> Result<ContentInfo, usize>
    ensures { Reads (info_of form) info_stop reader.old reader.new result }
{
    let whole = expect(reader, 0x30)?;
    // The settings are data that the grammar's definitions speak of, so they choose here, and no closure is handed in.
    match form {
        ContentForm::Any => read_any_info(reader, whole),
        ContentForm::TimeStampInfo => read_stamp_info(reader, whole),
    }
}
