use thiserror::Error;

/// Why a file wasn't opened: a variant for each cause.
#[derive(Clone, Copy, Debug, PartialEq, Eq, Error)]
pub(crate) enum OpenFault {
    /// The file doesn't begin as an XDF file does.
    #[error("no XDF file")]
    NotXdf,
    /// The file can't be opened, or its first bytes can't be read.
    #[error("the file can't be opened or read")]
    Open,
    /// There is no memory.
    #[error("out of memory")]
    Memory,
}

/// Why a report on a file wasn't made, or not to its end: a variant for each cause.
#[derive(Clone, Copy, Debug, PartialEq, Eq, Error)]
pub(crate) enum ReportFault {
    /// The file doesn't begin as an XDF file does.
    #[error("no XDF file")]
    NotXdf,
    /// The file can't be opened, or its first bytes can't be read.
    #[error("the file can't be opened or read")]
    Open,
    /// A read behind the magic failed.
    #[error("the file can't be read to its end")]
    Read,
    /// The file is too long.
    #[error("the file is too long")]
    SizeLimit,
    /// A line can't be said.
    #[error("a line can't be said")]
    Say,
    /// There is no memory.
    #[error("out of memory")]
    Memory,
}

/// Why a file wasn't repaired, or its repair wasn't told: a variant for each cause.
#[derive(Clone, Copy, Debug, PartialEq, Eq, Error)]
pub(crate) enum RepairFault {
    /// The input doesn't begin as an XDF file does. Nothing was created.
    #[error("no XDF file")]
    NotXdf,
    /// The input can't be opened, its first bytes can't be read, or the output can't be created.
    #[error("a file can't be opened")]
    Open,
    /// There was no memory to open the input. Nothing was created.
    #[error("out of memory for the input")]
    NoInput,
    /// A later read failed.
    #[error("the input can't be read to its end")]
    Read,
    /// A write failed.
    #[error("the output can't be written")]
    Write,
    /// The input is too long.
    #[error("the input is too long")]
    SizeLimit,
    /// The line can't be said. The output is complete.
    #[error("the line can't be said")]
    Say,
    /// There was no memory, once the output was created.
    #[error("out of memory")]
    Memory,
}

/// Why the numbers of a drill weren't said: a variant for each cause.
#[derive(Clone, Copy, Debug, PartialEq, Eq, Error)]
pub(crate) enum DrillFault {
    /// The line can't be said.
    #[error("the line can't be said")]
    Say,
    /// There is no memory.
    #[error("out of memory")]
    Memory,
}
