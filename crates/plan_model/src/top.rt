/// The call that asks for the command: the one that records, or the one for files that are there.
/// Each knows its own commands. This project's own.
#[derive(Clone, Copy, Debug, PartialEq, Eq)]
pub enum Top {
    Record,
    File,
}
