//! Items in turn.
ghost use Rattle.std.specs.Prelude.{◌≡◌, ◌-◌};
ghost use Rattle.std.specs.Iterator.{at_most};
ghost use Rattle.items.specs.Handing.{item_of, Hands};

use crate::item::{Handed, Item, Kind};
use crate::items::Items;

/// The part as an item of a kind.
fn item_of<'a>(kind: Kind, part: &'a [u8]) -> Item<'a>
    ensures { result ≡ item_of kind part.entry }
{
    // A function for each kind would have to be handed out as a pointer, and say no more.
    match kind {
        Kind::Certificate => Item::Certificate(part),
        Kind::Revocation => Item::Revocation(part),
        Kind::Attribute => Item::Attribute(part),
        Kind::SignerField => Item::SignerField(part),
    }
}

/// The first item that is left, with its offset; none where no element is left.
impl<'a> Iterator for Items<'a> {
    type Item = Handed<'a>;

    ghost next_gives = { Hands };

    ghost remaining = { λ items. at_most (items.reader.end - items.reader.at) };

    fn next(&mut self) -> Option<Handed<'a>> {
        let Ok(element) = self.reader.next() else {
            return None;
        };
        Some(Handed {
            offset: element.span.start,
            item: item_of(self.kind, element.whole()),
        })
    }
}
