//! What the system refused, and why.

use crate::refusal::{Cause, Deed, Trouble};
use crate::shown::shown;
use std::alloc::{AllocError, Global};
use std::io;

// What couldn't be done.
fn undone(deed: Deed) -> &'static str {
    match deed {
        Deed::Open => "can't be opened",
        Deed::Connect => "can't be reached",
        Deed::Create => "can't be made",
        Deed::Read => "can't be read",
        Deed::Write => "can't be written",
        Deed::Force => "can't be forced to the disk",
        Deed::Say => "doesn't take the lines",
    }
}

// The system's reason, in fewer words than its own where that can be.
fn system_reason(alloc: Global, deed: Deed, fault: &io::Error) -> Result<String, AllocError> {
    let undone = undone(deed);
    match (deed, fault.kind()) {
        (Deed::Create, io::ErrorKind::NotFound) => {
            format!(in alloc; "can't be made: its folder isn't there")
        }
        (Deed::Connect, io::ErrorKind::NotFound) => {
            format!(in alloc; "can't be reached: the host has no address")
        }
        (_, io::ErrorKind::NotFound) => format!(in alloc; "no such file"),
        (_, io::ErrorKind::PermissionDenied) => {
            format!(in alloc; "{undone}: you have no right to")
        }
        (_, io::ErrorKind::IsADirectory) => format!(in alloc; "is a folder"),
        (_, io::ErrorKind::NotADirectory) => {
            format!(in alloc; "{undone}: what stands before a / is no folder")
        }
        (_, io::ErrorKind::StorageFull) => format!(in alloc; "{undone}: the disk is full"),
        (_, io::ErrorKind::ConnectionRefused) => {
            format!(in alloc; "{undone}: nobody listens there")
        }
        _ => format!(in alloc; "{undone}: {fault}"),
    }
}

// Why it couldn't be done.
fn reason(alloc: Global, deed: Deed, cause: &Cause) -> Result<String, AllocError> {
    let undone = undone(deed);
    match cause {
        Cause::System(fault) => system_reason(alloc, deed, fault),
        Cause::HasBytes => {
            format!(in alloc; "is there already and has bytes, and is left as it was")
        }
        Cause::IsInput => format!(in alloc; "is one of the inputs, and is left as it was"),
        Cause::LeadsNowhere => format!(in alloc; "is a link that leads to nothing"),
        Cause::Unsaid => format!(in alloc; "{undone}, and the system doesn't say why"),
        Cause::Memory => format!(in alloc; "{undone}: there is no memory"),
        Cause::NoNumber => format!(in alloc; "{undone}: too many files are open"),
    }
}

/// The name, and why what was asked of it couldn't be done.
pub(crate) fn trouble_text(alloc: Global, trouble: &Trouble<'_>) -> Result<String, AllocError> {
    let name = shown(alloc, trouble.name)?;
    let reason = reason(alloc, trouble.deed, trouble.cause)?;
    format!(in alloc; "{name}: {reason}")
}
