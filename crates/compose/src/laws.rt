//! What a composed stamp is.
ghost use Rattle.compose.specs.Laws.{ComposedIs, ComposedCarries, ComposedValid};

/// The pieces joined are the stamp's attribute with the index in it; it carries the stamp, and is valid where it stands.
pub fn laws_hold() -> bool
    ensures composed_is { ComposedIs }
    ensures composed_carries { ComposedCarries }
    ensures composed_valid { ComposedValid }
{
    true
}
