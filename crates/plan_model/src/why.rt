/// Why a plan is refused. The reasons are this project's own, and are numbered from 1 in this order.
#[derive(Clone, Copy, Debug, PartialEq, Eq)]
pub enum PlanWhy {
    /// The first word of the line is none that begins one.
    UnknownWord,
    /// The line has another number of words than its form.
    WrongCount,
    /// A number isn't 1 to 13 decimal digits, or is out of its range.
    BadNumber,
    /// The setting or the id was there before.
    Repeated,
    /// A word that chooses or divides is none that may stand there.
    BadKind,
    /// The feed is the 65th.
    TooManyFeeds,
    /// No line has a feed. It is told of line 0.
    NoFeed,
    /// The line isn't UTF-8, or has a control byte.
    NotText,
    /// The document's path or the feed's is the output's name.
    OutputNamed,
    /// The text has more than 1,048,576 bytes. It is told of line 0.
    TooLong,
}
