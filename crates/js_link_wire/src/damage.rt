//! Why bytes cannot be what a server writes.

/// Why bytes do not begin with a frame, whatever follows them.
#[derive(Clone, Copy, Debug, PartialEq, Eq)]
pub enum Damage {
    /// The first line is longer than [`LONGEST_LINE`](crate::LONGEST_LINE), or, if it begins like
    /// that of INFO, longer than [`LONGEST_INFO`](crate::LONGEST_INFO).
    LineTooLong,
    /// A line feed without a carriage return before it ends the line.
    BareLineFeed,
    /// The line is not UTF-8.
    NotText,
    /// The line begins with a word that no server sends.
    UnknownVerb,
    /// The line of a message has too few or too many words.
    WrongArguments,
    /// A number has a byte that is not a decimal digit (a sign counts too), or is 2^64 or more.
    BadNumber,
    /// The body of a message is longer than the limit.
    BodyTooLong,
    /// The headers are longer than the body that they begin.
    HeadersTooLong,
    /// No line end follows the body of a message.
    NoLineEnd,
}

/// Why no frame was read.
#[derive(Clone, Copy, Debug, PartialEq, Eq)]
pub(crate) enum Unread {
    /// Too few bytes have come.
    More,
    /// The bytes do not begin with a frame.
    Damaged(Damage),
}

impl From<Damage> for Unread {
    ghost use Rattle.js_link_wire.specs.declared.damage.Unread.TheVariants.{Damaged};
    ghost use Rattle.std.specs.Prelude.{◌≡◌};

    ghost from_gives = { λ damage unread. unread ≡ Damaged damage };

    fn from(damage: Damage) -> Unread {
        Unread::Damaged(damage)
    }
}
