//! Why no chunk stands at a place of a file.

/// The reason of this number, in words.
pub(crate) fn place_reason(why: u64) -> &'static str {
    match why {
        1 => "a length or a count there has a width that is none of 1, 4 and 8",
        2 => "the chunk there is too short for its tag",
        3 => "the chunk there is longer than 67108864 bytes, the limit of this program",
        4 => "the chunk there ends before what it promises",
        5 => "the chunk there is of a stream that has no header before it",
        6 => "the header there has the id of an earlier stream",
        7 => "the header there tells no channel count from 1 to 4096, or no known format",
        8 => "a sample there begins with neither 0 nor 8",
        9 => "the samples of the chunk there end before their number",
        10 => "the chunk there has bytes left behind all that it should have",
        11 => "the boundary there has other bytes than a boundary's",
        _ => "no chunk stands there",
    }
}
