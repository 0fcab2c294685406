use crate::report::ReportList;
use crate::sources::SourceList;

/// How a run went. This project's own.
#[derive(Debug, Drop)]
pub enum Outcome<S> {
    /// Every feed was read to its end, and the file is whole: what became of the feeds, the file's size
    /// and its number of chunks, and the sources as they were left, in the order of their streams. Each
    /// number stands still at 2^64 - 1 where it would pass that.
    Done {
        reports: ReportList,
        bytes: u64,
        chunks: u64,
        sources: SourceList<S>,
    },
    /// A write failed.
    WriteFault,
    /// There was no memory.
    Memory,
}
