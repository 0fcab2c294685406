/// What came of reading on behind the last chunk. This project's own.
#[derive(Clone, Copy, Debug, PartialEq, Eq)]
pub enum Rest {
    /// The input ended, behind so many bytes in all.
    End { size: u64 },
    /// A read failed.
    ReadFault,
    /// There are more bytes than count.
    SizeLimit,
}
