//! What the definitions give together.
ghost use Rattle.stamp_model.specs.Laws.{OneIndex, OneStamp, PartsTell, LateLaws, SignerStays, StampStays, EmptyIndex};

/// Bytes are one index at most, and an attribute one stamp; equal imprint inputs have equal parts; later copies keep
/// signers, imprint inputs and cover; and the bytes of an empty index.
pub fn laws_hold() -> bool
    ensures one_index { OneIndex }
    ensures one_stamp { OneStamp }
    ensures parts_tell { PartsTell }
    ensures late_laws { LateLaws }
    ensures signer_stays { SignerStays }
    ensures stamp_stays { StampStays }
    ensures empty_index { EmptyIndex }
{
    true
}
