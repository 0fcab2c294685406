//! Which file something is, under whatever name.

ghost use Rattle.std.specs.Prelude.{◌↔◌, IsTrue};
ghost use Rattle.real_dock.specs.Outputs.{IsFree};

use std::fs::Metadata;
use std::os::unix::fs::MetadataExt;

/// What the system tells a file from every other by: its device, and its number there. All names and
/// links of one file have it.
#[derive(Clone, Copy, PartialEq, Eq)]
pub(crate) struct Identity {
    device: u64,
    number: u64,
}

/// The identity of the file that this was found of.
pub(crate) fn identity_of(found: &Metadata) -> Identity {
    Identity {
        device: found.dev(),
        number: found.ino(),
    }
}

/// Whether a file that is there already may become the output: it is none of the inputs, and has no
/// bytes where it is a regular file.
pub(crate) fn is_free(found: &Metadata, identity: Identity, inputs: &[Identity]) -> bool
    ensures { IsTrue result ↔ IsFree found.now identity inputs.now }
{
    !inputs.contains(&identity) && (!found.is_file() || found.len() == 0)
}
