//! The lines of elements back to back.
ghost use Rattle.std.specs.Prelude.{◌≡◌, ℕ, ◌-◌, ◌≤◌, ◌++◌, length, OnOk};
ghost use Rattle.der.specs.Spans.{part};
ghost use Rattle.der.specs.Trees.{Forest, Forms, Valids, encodes};
ghost use Rattle.listing.specs.Listed.{lines_in};

use super::line::Line;
use der::Reader;
use std::alloc::AllocError;

/// Appends the lines of the whole elements on one level that the reader has; refuses for want of memory.
pub(crate) fn list_elements(
    lines: &mut Vec<Line>,
    elements: Reader,
    level: u8,
) -> Result<(), AllocError>
    requires order { elements.at ≤ elements.end }
    requires within { elements.end ≤ length elements.bytes.now }
    requires deep { level ≤ 33 }
    requires forms { Forms (33 - level) (part elements.bytes.now elements.at elements.end) }
    ensures { OnOk result ((ts : Forest) → Valids ts (33 - level) → encodes ts ≡ part elements.entry.bytes.now elements.entry.at elements.entry.end
        → lines.new.items ≡ lines.old.items ++ lines_in elements.entry.at level ts) }
{
    let mut reader = elements;
    while !reader.is_empty() {
        // Whole elements go on with a whole element.
        let Ok(element) = reader.next() else {
            unreachable()
        };
        let span = element.span;
        lines.push(Line {
            offset: span.start,
            level,
            tag: span.tag,
            header: span.body - span.start,
            contents: span.end - span.body,
        })?;
        if span.tag & 0x20 != 0 {
            list_elements(lines, element.enter(), level + 1)?;
        }
    }
    Ok(())
}
