use thiserror::Error;

/// Why an input wasn't read. This project's own.
#[derive(Clone, Copy, Debug, PartialEq, Eq, Error)]
pub enum InputFault {
    /// It has more bytes than the limit.
    #[error("the input is too long")]
    TooLong,
    /// It can't be opened, or a read of it failed.
    #[error("the input can't be opened or read")]
    Open,
    /// There was no memory.
    #[error("out of memory")]
    Memory,
}
