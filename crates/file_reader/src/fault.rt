use thiserror::Error;

/// Why no reader of a file was opened. This project's own.
#[derive(Clone, Copy, Debug, PartialEq, Eq, Error)]
pub enum FileFault {
    /// The input doesn't begin with the four bytes of an XDF file (XDF 1.0, "File structure").
    #[error("no XDF file")]
    NotXdf,
    /// A read failed.
    #[error("a read failed")]
    ReadFault,
    /// There is no memory.
    #[error("out of memory")]
    Memory,
}
