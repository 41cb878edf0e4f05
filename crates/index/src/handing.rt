//! Elements handed out in turn.
ghost use Rattle.std.specs.Iterator.{at_most};
ghost use Rattle.index.specs.Handing.{HandsElement};

use crate::elements::Elements;
use der::Element;

/// The next element, as long as some are left and their bytes go on with one.
impl<'a> Iterator for Elements<'a> {
    type Item = Element<'a>;

    ghost next_gives = { HandsElement };

    ghost remaining = { λ elements. at_most elements.count };

    fn next(&mut self) -> Option<Element<'a>> {
        if self.count == 0 {
            return None;
        }
        let Ok(element) = self.reader.next() else {
            return None;
        };
        self.count -= 1;
        Some(element)
    }
}
