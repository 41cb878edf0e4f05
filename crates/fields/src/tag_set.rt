//! Tags of which an element may have one.
ghost use Rattle.std.specs.Prelude.{◌≡◌, ℕ, Bool};
ghost use Rattle.fields.specs.Reads.{is};

/// The tags that are allowed.
pub trait TagSet {
    /// Whether a tag is one of them.
    ghost tags: { Self → ℕ → Bool };

    fn contains(&self, tag: u8) -> bool
        ensures { result ≡ tags self.now tag };
}

/// One tag alone.
#[derive(Clone, Copy)]
pub(crate) struct Only {
    pub(crate) tag: u8,
}

impl TagSet for Only {
    ghost tags = { λ only. is only.tag };

    fn contains(&self, tag: u8) -> bool {
        tag == self.tag
    }
}
