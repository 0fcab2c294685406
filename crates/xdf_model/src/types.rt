//! Plain data that the definitions and the code share.

use thiserror::Error;

/// How a channel's values are written: the `channel_format` of a stream header (XDF 1.0,
/// "StreamHeader chunk").
#[derive(Clone, Copy, Debug, PartialEq, Eq)]
pub enum Format {
    /// `float32`, an IEEE 754 single, kept as its 4 bytes.
    Float32,
    /// `double64`, an IEEE 754 double, kept as its 8 bytes.
    Double64,
    /// `string`, bytes of any length.
    Text,
    /// `int32`, 4 bytes in two's complement.
    Int32,
    /// `int16`, 2 bytes in two's complement.
    Int16,
    /// `int8`, 1 byte in two's complement.
    Int8,
    /// `int64`, 8 bytes in two's complement.
    Int64,
}

/// The channels of a stream: how many there are, 1 to 4096, and how their values are written.
#[derive(Clone, Copy, Debug, PartialEq, Eq)]
pub struct Shape {
    pub count: u16,
    pub format: Format,
}

/// The time stamp of a sample. `Bits` is the pattern of an IEEE 754 double in seconds (XDF 1.0,
/// "Samples chunk"); `None` stands where a reader is to deduce the stamp.
#[derive(Clone, Copy, Debug, PartialEq, Eq)]
pub enum Stamp {
    None,
    Bits(u64),
}

/// What stands at the front of some bytes as a variable-length integer (XDF 1.0,
/// "Variable-Length Integers").
#[derive(Clone, Copy, Debug, PartialEq, Eq)]
pub enum NumRead {
    /// The number, and how many bytes it takes with its width byte.
    Read { value: u64, used: usize },
    /// The first byte, or a byte that it promises, isn't there.
    Short,
    /// The first byte, which is here, is no width.
    BadWidth(u8),
}

/// Why no chunk stands at a place of a file. The reasons are this project's own, and are numbered
/// from 1 in this order.
#[derive(Clone, Copy, Debug, PartialEq, Eq)]
pub enum Why {
    /// A width byte is none of 1, 4 and 8.
    BadWidth,
    /// A chunk's length doesn't cover its tag.
    LengthUnderTwo,
    /// A chunk's length is above the limit.
    TooLong,
    /// A content ends before its fixed fields do.
    ShortContent,
    /// No stream header with this id came before.
    UnknownStream,
    /// A stream header with this id came before.
    RepeatedStream,
    /// The document of a stream header has no shape.
    NoShape,
    /// The first byte of a sample is neither 0 nor 8.
    BadStampWidth,
    /// A sample passes the end of its chunk.
    SamplesShort,
    /// Bytes stand behind the last field of a content.
    ExtraBytes,
    /// A boundary chunk has another byte than the boundary's.
    BadBoundary,
}

/// Why a document has no shape. This project's own.
#[derive(Clone, Copy, Debug, PartialEq, Eq, Error)]
pub enum NoShape {
    /// The document has no `<channel_count>`.
    #[error("no channel count")]
    NoCount,
    /// Behind the first `<channel_count>` stands no number from 1 to 4096 of at most five digits,
    /// closed at once.
    #[error("no channel count from 1 to 4096")]
    BadCount,
    /// The document has no `<channel_format>`.
    #[error("no channel format")]
    NoFormat,
    /// Behind the first `<channel_format>` stands none of the seven names, closed at once.
    #[error("an unknown channel format")]
    BadFormat,
}
