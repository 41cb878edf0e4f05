//! What the definitions give together.
ghost use Rattle.listing.specs.Pages.{OneText};
ghost use Rattle.listing.specs.Samples.{Samples};

/// A file has one text, and the samples read as they should.
pub fn laws_hold() -> u8
    ensures one_text { OneText }
    ensures samples { Samples }
{
    0
}
