//! Why bytes are no element.
ghost use Rattle.std.specs.Prelude.{◌≡◌};
ghost use Rattle.der.specs.Causes.{cause_number};

/// What is wrong with an element; each case has its number.
#[derive(Clone, Copy, Debug, PartialEq, Eq)]
pub enum Cause {
    /// A byte is missing, or the contents pass the end of what encloses the element.
    Missing = 1,
    /// The low five bits of the tag are all ones: the tag would go on in further bytes.
    HighTag = 2,
    /// Length byte 80: the length is left open.
    Indefinite = 3,
    /// Length byte 83 to FF: the length would take three bytes or more.
    HugeLength = 4,
    /// A shorter form of length would do.
    LongLength = 5,
    /// The element stands deeper than the levels there are.
    TooDeep = 6,
}

impl Cause {
    /// The number by which the cause is told.
    pub fn number(self) -> u8
        ensures { result ≡ cause_number self }
    {
        self as u8
    }
}
