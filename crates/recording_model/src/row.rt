/// Positions of a stream that a full ring dropped: `count` of them from `first` on, counted from 0
/// at the stream's first sample. This project's own.
///
/// A row is in range where the stream is 1 to 65,535, `first` is below 2^62, and `count` is 1 to
/// 2^62.
#[derive(Clone, Copy, Debug, PartialEq, Eq)]
pub struct Row {
    pub stream: u32,
    pub first: u64,
    pub count: u64,
}
