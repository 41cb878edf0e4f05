//! What the definitions give together, and a worked sample.
ghost use Rattle.imprint.specs.Laws.{OneContent, NeverLong};
ghost use Rattle.imprint.specs.Samples.{Samples};

/// A call reads a content exactly when just one is there, and no imprint input of a file is too long for a digest.
pub fn laws_hold() -> bool
    ensures one_content { OneContent }
    ensures never_long { NeverLong }
{
    true
}

/// The worked sample holds of the definitions.
pub fn samples_hold() -> bool
    ensures { Samples }
{
    true
}
