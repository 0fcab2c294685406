use crate::FeedLines;
use rec_base::Word;

/// Whether the feeds are recorded each on a thread of its own, or by turns on one. This project's
/// own.
#[derive(Clone, Copy, Debug, PartialEq, Eq)]
pub enum Mode {
    Threads,
    Turns,
}

/// Where the bytes of a feed come from. This project's own.
#[derive(Debug, Drop)]
pub enum FeedFrom {
    /// A captured feed, in the file at this path.
    File(Word),
    /// An outlet at a host and a port from 1 to 65,535, and the uid of its stream.
    Tcp { host: Word, port: u16, uid: Word },
}

/// A feed of a plan. This project's own.
#[derive(Debug, Drop)]
pub struct FeedLine {
    /// The id of the feed's stream, from 1 to 65,535.
    pub id: u32,
    /// The path of the stream's header document.
    pub doc: Word,
    pub from: FeedFrom,
    /// The most samples that are received, from 1 to 2^40, where there is a limit.
    pub limit: Option<u64>,
}

/// What is to be recorded, and how. This project's own.
#[derive(Debug, Drop)]
pub struct Plan {
    /// The most samples that wait in a feed's ring, from 1 to 1,048,576.
    pub ring: u64,
    /// The most samples that are taken from a ring at once, from 1 to 65,536.
    pub batch: u64,
    pub mode: Mode,
    /// From 1 to 64 feeds with different ids, in the order of their streams.
    pub feeds: FeedLines,
}
