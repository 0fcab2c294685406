use xdf_model::Why;

/// How the reading of a file ended. The ends are this project's own; places are counted from 0 at the
/// file's first byte.
#[derive(Clone, Copy, Debug, PartialEq, Eq)]
pub enum FileEnd {
    /// The input ended behind a whole chunk, or directly behind the magic.
    End { at: u64 },
    /// The input ended inside a chunk, which begins at `at` and of which `left` bytes are there.
    Torn { at: u64, left: u64 },
    /// What stands there is no chunk, whatever follows.
    Bad { at: u64, why: Why },
    /// A read failed.
    ReadFault,
    /// A byte past the limit was read, and the bytes before it hold no further chunk and no fault.
    SizeLimit,
}
