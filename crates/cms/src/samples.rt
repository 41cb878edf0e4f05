//! Worked samples, as a contract.
ghost use Rattle.cms.specs.Samples.{Samples};

/// The worked samples hold of the definitions.
pub fn samples_hold() -> bool
    ensures { Samples }
{
    true
}
