use reply_model::ReplyWhy;

/// How a feed ended. The ends and their places are this project's own; places are counted from 0 at
/// the feed's first byte.
#[derive(Clone, Copy, Debug, PartialEq, Eq)]
pub enum FeedEnd {
    /// The input ended behind a whole sample, or directly behind the test samples.
    Whole,
    /// As many samples as asked for were there.
    Limit,
    /// The input ended before the reply's empty line.
    TornReply,
    /// The reply is refused, for a reason and at a place.
    ReplyRefused { at: u64, why: ReplyWhy },
    /// The input ended inside a sample, or before both test samples were whole. The place is where
    /// that sample begins.
    TornSample(u64),
    /// A sample begins with neither 1 nor 2, the tags of LSL's data protocol 1.10.
    BadTag { at: u64, byte: u8 },
    /// The byte before a text's length is none of 1, 2, 4 and 8.
    BadWidth { at: u64, byte: u8 },
    /// The texts of a sample are longer than 16,777,216 bytes together. The place is that of the
    /// width byte of the text that makes them so.
    SampleTooLong(u64),
    /// A read failed.
    ReadFault,
    /// More bytes came than the feed may have.
    ByteLimit,
}
