/// What a check of a file has to say of a place: the note's number, the stream that it is about,
/// where it is about one, and the place, in bytes from the file's first one. The numbers are this
/// project's own.
#[derive(Clone, Copy, Debug, PartialEq, Eq)]
pub struct Note {
    pub number: u8,
    pub id: Option<u32>,
    pub at: u64,
}
