/// How a repair ended. This project's own.
#[derive(Clone, Copy, Debug, PartialEq, Eq)]
pub enum Repaired {
    /// So many whole chunks were written, which are so many bytes with the magic; so many bytes of the
    /// input behind them were left out.
    Done {
        chunks: u64,
        bytes: u64,
        skipped: u64,
    },
    /// A read failed.
    ReadFault,
    /// A write failed.
    WriteFault,
    /// There are more bytes than count.
    SizeLimit,
    /// There was no memory.
    Memory,
}
