use crate::Blob;

/// What a source in memory does next: give these bytes, in one read or several, or fail once.
#[derive(Debug, Drop)]
pub enum Piece {
    Give(Blob),
    Fail,
}
