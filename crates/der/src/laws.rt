//! What the definitions give together, as contracts.
ghost use Rattle.der.specs.Laws.{HeaderExact, OneForest, OneFront, OneFault, NeverBoth, AlwaysOne, FrontLaws, Samples};

/// Bytes are one forest or have one first fault, and never both; reading and writing a header are inverse.
pub fn laws_hold() -> bool
    ensures header_exact { HeaderExact }
    ensures one_forest { OneForest }
    ensures one_front { OneFront }
    ensures one_fault { OneFault }
    ensures never_both { NeverBoth }
    ensures always_one { AlwaysOne }
    ensures front { FrontLaws }
{
    true
}

/// The worked samples hold of the definitions.
pub fn samples_hold() -> bool
    ensures { Samples }
{
    true
}
