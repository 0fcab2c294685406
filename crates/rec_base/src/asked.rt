use crate::{Name, Word};

/// What a dock was asked for: to open a name, or to create a file under a name. This project's own.
#[derive(Debug, Drop)]
pub enum Asked {
    Opening(Name),
    Creation(Word),
}
