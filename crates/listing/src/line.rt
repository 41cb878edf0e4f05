//! One line of an outline.
ghost use Rattle.std.specs.Prelude.{Some};
ghost use Rattle.listing.specs.Words.{line_text};

use std::fmt;

/// An element as an outline tells it.
#[derive(Clone, Copy)]
pub struct Line {
    /// The offset of its tag.
    pub offset: usize,
    /// Its level, from 1.
    pub level: u8,
    pub tag: u8,
    /// How many bytes its tag and length take.
    pub header: usize,
    /// How many bytes its contents take.
    pub contents: usize,
}

/// As `    17: level 3 tag 06 header 2 contents 9`, indented by two spaces for each level below the first.
impl fmt::Display for Line {
    ghost output = { λ l. Some (line_text l) };

    fn fmt<W: fmt::Write>(&self, f: &mut fmt::Formatter<W>) -> fmt::Result {
        let Line {
            offset,
            level,
            tag,
            header,
            contents,
        } = *self;
        let indent = 2 * usize::from(level.saturating_sub(1));
        write!(
            f,
            "{:indent$}{offset}: level {level} tag {tag:02X} header {header} contents {contents}",
            ""
        )
    }
}
