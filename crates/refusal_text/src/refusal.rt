//! What a program knows at its end.

use std::io;

/// What the system was asked for when it refused.
#[derive(Clone, Copy, Debug, PartialEq, Eq)]
pub enum Deed {
    /// To open a file that is read.
    Open,
    /// To reach a peer, and to take the request.
    Connect,
    /// To make the output, or to take the file that is there.
    Create,
    Read,
    Write,
    /// To force the output to the disk.
    Force,
    /// To take lines on standard output.
    Say,
}

/// Why it was refused.
#[derive(Debug, Drop)]
pub enum Cause {
    /// The system's own reason.
    System(io::Error),
    /// The output is a regular file that has bytes.
    HasBytes,
    /// The output is one of the inputs.
    IsInput,
    /// A link of the output's name leads to nothing.
    LeadsNowhere,
    /// There is no output (nothing was created), or a write took no byte without the system saying why.
    Unsaid,
    /// There was no memory to remember it by.
    Memory,
    /// No number past those of the standard streams was free for it.
    NoNumber,
}

/// What of the outside failed last: what was asked for, of which name, and why. A peer's name is
/// `HOST port PORT`.
#[derive(Clone, Copy)]
pub struct Trouble<'a> {
    pub deed: Deed,
    pub name: &'a str,
    pub cause: &'a Cause,
}

/// What the program knows at its end.
#[derive(Clone, Copy)]
pub struct Refusal<'a> {
    /// The words of the command line, as texts, without the program's name.
    pub words: &'a [&'a str],
    pub status: u8,
    /// The last line that was said on standard output, without its line feed; empty where none was.
    pub line: &'a str,
    /// The line of the plan that `line` counts, without its end, if it could be read again.
    pub plan_line: Option<&'a str>,
    /// For the statuses 4, 5 and 8, what decided the status.
    pub trouble: Option<Trouble<'a>>,
}
