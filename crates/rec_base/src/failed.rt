use thiserror::Error;

/// The outside failed: an opening, a creation, a read, a write or a line.
///
/// The object that answers it has counted it. This project's own.
#[derive(Clone, Copy, Debug, PartialEq, Eq, Error)]
#[error("the outside failed")]
pub struct Failed;
