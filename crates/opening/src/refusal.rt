//! Why a call is refused.
ghost use Rattle.std.specs.Prelude.{◌≡◌};
ghost use Rattle.opening.specs.declared.refusal.Refusal.TheVariants.{Unread};

use der::Fault;

/// The first reason, in the order of the cases.
#[derive(Clone, Copy, Debug, PartialEq, Eq)]
pub enum Refusal {
    /// The file cannot be read, or its signer is not there.
    Unread(archive::Refusal),
    /// There is no such list to add to.
    NoList,
    /// An element of what is to be added is at fault; its place counts from the start of that.
    AddedElement(Fault),
    /// What is to be added is not one whole element of its list; the place counts from its start.
    AddedField(usize),
    /// What is to be added may not be: a stamp, or an attribute of a type that is signed.
    Barred,
    /// The file has content and a source is given too, or it has neither.
    Content,
    /// The stamp is not there.
    NoStamp,
    /// Token or index breaks its form.
    Malformed,
    /// Token or index names another digest.
    OtherDigest,
    /// The imprint is not the digest of the imprint input.
    OtherImprint,
    /// An entry has no element of its digest in its list.
    NoElement,
    /// An equal element stands in that list already, or a second one where one may stand.
    Equal,
    /// An area, a table or the buffer is too short, or a limit would be passed.
    Room,
}

impl From<archive::Refusal> for Refusal {
    ghost from_gives = { λ unread refusal. refusal ≡ Unread unread };

    fn from(unread: archive::Refusal) -> Refusal {
        Refusal::Unread(unread)
    }
}
