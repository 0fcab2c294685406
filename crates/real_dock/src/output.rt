//! The file that is written. It is never emptied, and no byte of it is written over.

ghost use Rattle.std.specs.Prelude.{◌≡◌, ◌≤◌, ◌<◌, length, true, false, IfOk, IsTrue};
ghost use Rattle.std.specs.Io.{WritesAtMost};
ghost use Rattle.std.specs.Io.KnownBytes.{WriteAppends};
ghost use Rattle.std.specs.Fs.{asks_append, asks_create, asks_create_new, asks_truncate};
ghost use Rattle.real_dock.specs.Outputs.{held_of, is_forced};

use crate::identity::{Identity, identity_of, is_free};
use crate::retry::write_again;
use crate::streams::{HighFile, file_beside_streams};
use crate::system::System;
use refusal_text::Cause;
use std::fs::{OpenFile, OpenOptions};
use std::io::{self, Write};
use std::os::fd::AsRawFd;

/// A file that is written.
#[derive(Drop)]
pub(crate) struct Output<F: Write + OpenFile + Drop> {
    high: HighFile<F>,
    // whether the file lies on a disk, and is no pipe or device
    is_regular: bool,
    // the folder that the file was made in; none where it was there before
    folder: Option<F>,
    // whether what was written was forced to the disk
    is_forced: bool,
}

/// The output of this name. The file is made where there is none of this name. Where there is one, it
/// is taken as it is, without emptying it; but none of the inputs is, nor a regular file that has
/// bytes. A file is made only in a folder that can be opened, so that it can be forced to the disk.
pub(crate) fn create_output<S: System>(
    system: &S,
    name: &str,
    inputs: &[Identity],
) -> Result<Output<S::File>, Cause> {
    match make_file(system, name) {
        Ok((file, folder)) => output_of(file, true, Some(folder)),
        Err(fault) => take_file(system, name, inputs, fault),
    }
}

// A new file, and its folder.
fn make_file<S: System>(system: &S, name: &str) -> io::Result<(S::File, S::File)> {
    let mut how = OpenOptions::new();
    how.read(true);
    let folder = system.open_file(&how, folder_of(name))?;
    let file = system.open_file(&output_options(true), name)?;
    Ok((file, folder))
}

// The output over a file that is there, where none can be made, for this fault. The file that was opened
// is judged, and not its name again. A link that points to nothing names no file that is there.
fn take_file<S: System>(
    system: &S,
    name: &str,
    inputs: &[Identity],
    fault: io::Error,
) -> Result<Output<S::File>, Cause> {
    let file = match system.open_file(&output_options(false), name) {
        Ok(file) => file,
        Err(none) => return Err(why_none(fault, none)),
    };
    let found = match file.metadata() {
        Ok(found) => found,
        Err(fault) => return Err(Cause::System(fault)),
    };
    let identity = identity_of(&found);
    if is_free(&found, identity, inputs) {
        output_of(file, found.is_file(), None)
    } else if inputs.contains(&identity) {
        Err(Cause::IsInput)
    } else {
        Err(Cause::HasBytes)
    }
}

// Why a file can neither be made nor taken, by what the system said to each.
fn why_none(made: io::Error, taken: io::Error) -> Cause {
    if taken.kind() != io::ErrorKind::NotFound {
        return Cause::System(taken);
    }
    if made.kind() == io::ErrorKind::AlreadyExists {
        return Cause::LeadsNowhere;
    }
    Cause::System(made)
}

// What is written goes behind all bytes that the file has by then, and no byte goes.
fn output_options(is_new: bool) -> OpenOptions
    ensures new { asks_create_new result ≡ is_new }
    ensures not_made { asks_create result ≡ false }
    ensures not_emptied { asks_truncate result ≡ false }
    ensures behind { asks_append result ≡ true }
{
    let mut options = OpenOptions::new();
    options.append(true);
    options.create_new(is_new);
    options
}

// The folder of a name, which ends with a slash, so that it can be nothing but a folder.
fn folder_of(name: &str) -> &str {
    match name.rfind('/') {
        Some(at) => name.get(..=at).unwrap_or("/"),
        None => "./",
    }
}

// The output over a file, under a number past those of the standard streams.
fn output_of<F: Write + OpenFile + AsRawFd + Drop>(
    file: F,
    is_regular: bool,
    folder: Option<F>,
) -> Result<Output<F>, Cause> {
    match file_beside_streams(file) {
        Some(high) => Ok(Output {
            high,
            is_regular,
            folder,
            is_forced: false,
        }),
        None => Err(Cause::NoNumber),
    }
}

/// Writes some of the bytes, and answers how many: at least one of some. A refusal comes where there is
/// no output, or it takes none of them.
pub(crate) fn write_some<F: Write + OpenFile + Drop>(
    output: &mut Option<Output<F>>,
    bytes: &[u8],
) -> Result<usize, Cause>
    ensures bound { WritesAtMost result bytes.now }
    ensures some { 0 < length bytes.now → IfOk result (λ n. 0 < n) }
    ensures held { WriteAppends (held_of F.contents output.old) (held_of F.contents output.new) result bytes.now }
{
    match output {
        Some(output) => write_into(output, bytes),
        None => Err(Cause::Unsaid),
    }
}

// The same for an output that there is.
fn write_into<F: Write + OpenFile + Drop>(
    output: &mut Output<F>,
    bytes: &[u8],
) -> Result<usize, Cause>
    ensures bound { WritesAtMost result bytes.now }
    ensures some { 0 < length bytes.now → IfOk result (λ n. 0 < n) }
    ensures held { WriteAppends (F.contents output.old.high.file) (F.contents output.new.high.file) result bytes.now }
    ensures unforced { output.new.is_forced ≡ false }
{
    output.is_forced = false;
    write_counted(&mut output.high.file, bytes)
}

/// One write that no signal interrupted, and how many bytes were taken: at least one of some.
pub(crate) fn write_counted<F: Write>(file: &mut F, bytes: &[u8]) -> Result<usize, Cause>
    ensures bound { WritesAtMost result bytes.now }
    ensures some { 0 < length bytes.now → IfOk result (λ n. 0 < n) }
    ensures bytes { WriteAppends (F.contents file.old) (F.contents file.new) result bytes.now }
{
    match write_again(file, bytes) {
        Ok(0) if !bytes.is_empty() => Err(Cause::Unsaid),
        Ok(n) => Ok(n),
        Err(fault) => Err(Cause::System(fault)),
    }
}

/// Forces what was written to the disk, where the output is a regular file, and its folder where the
/// file was made.
pub(crate) fn force_out<F: Write + OpenFile + Drop>(
    output: &mut Option<Output<F>>,
) -> Result<(), Cause>
    ensures forced { IfOk result (λ _. is_forced output.new ≡ true) }
    ensures held { held_of F.contents output.new ≡ held_of F.contents output.old }
{
    match output {
        Some(output) => {
            if output.is_regular {
                let high = &output.high;
                sync_both(&high.file, &output.folder)?;
            }
            output.is_forced = true;
            Ok(())
        }
        None => Ok(()),
    }
}

// Forces a file, and its folder if there is one, to the disk.
fn sync_both<F: OpenFile>(file: &F, folder: &Option<F>) -> Result<(), Cause> {
    sync(file)?;
    match folder {
        Some(folder) => sync(folder),
        None => Ok(()),
    }
}

fn sync<F: OpenFile>(file: &F) -> Result<(), Cause> {
    match file.sync_all() {
        Ok(()) => Ok(()),
        Err(fault) => Err(Cause::System(fault)),
    }
}
