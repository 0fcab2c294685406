//! Files, peers and standard output.

ghost use Rattle.std.specs.Prelude.{◌≡◌, ◌≤◌, ◌++◌, ◌∷◌, [], OnOk};
ghost use Rattle.rec_base.specs.Causes.{Rose};
ghost use Rattle.real_dock.specs.Outputs.{Remembers};
ghost use Rattle.real_dock.specs.declared.identity.Identity.{Identity};

use crate::identity::{Identity, identity_of};
use crate::notes::Notes;
use crate::output::{Output, create_output, force_out, write_some};
use crate::peer::open_peer;
use crate::pulse::Pulse;
use crate::real_source::{Origin, RealSource};
use crate::said::say_into;
use crate::settle::Settle;
use crate::system::System;
use rec_base::{Dock, Failed, Lines, Name, Sink, Word};
use refusal_text::{Cause, Deed, Trouble};
use std::alloc::{AllocError, Global};
use std::fs::{Metadata, OpenFile, OpenOptions};
use std::io::{self, BufWriter, Write};
use std::sync::Arc;

// How many bytes of lines wait at most.
const MOST_WAITING: usize = 65_536;

// What failed first of all that the dock did itself.
#[derive(Drop)]
struct Noted {
    deed: Deed,
    name: Option<String>,
    cause: Cause,
}

/// Files and peers of a system, and a place for the lines, which go out together, at the latest at
/// `flush`. It tells what these tell of their bytes, counts what failed, and keeps the first reason.
#[derive(Drop)]
pub struct RealDock<S: System + Drop, W: Write + Drop> {
    alloc: Global,
    system: S,
    // lines that wait until they make up 65,536 bytes
    lines: BufWriter<W>,
    // the files that were opened to be read
    inputs: Vec<Identity>,
    // the names of all that was opened to be read, as people read them
    names: Vec<String>,
    output: Option<Output<S::File>>,
    target: Option<String>,
    noted: Option<Noted>,
    fault_line: Option<String>,
    notes: Option<Arc<Notes, Global>>,
    open_faults: u64,
    write_faults: u64,
    print_faults: u64,
}

impl<S: System + Drop, W: Write + Drop> RealDock<S, W> {
    /// A dock that has opened and created nothing, and that shows a sign of life, where there is one.
    /// `AllocError` comes where there is no memory for the lines that wait.
    pub fn new(
        alloc: Global,
        system: S,
        out: W,
        pulse: Option<Pulse>,
    ) -> Result<RealDock<S, W>, AllocError> {
        let Ok(lines) = BufWriter::with_capacity(alloc, MOST_WAITING, out) else {
            return Err(AllocError);
        };
        Ok(RealDock {
            alloc,
            system,
            lines,
            inputs: Vec::new(alloc),
            names: Vec::new(alloc),
            output: None,
            target: None,
            noted: None,
            fault_line: None,
            notes: Arc::new(alloc, Notes::new(pulse)).ok(),
            open_faults: 0,
            write_faults: 0,
            print_faults: 0,
        })
    }

    /// Notes the first read of a source that failed, where nothing that the dock did itself has.
    pub fn note_reads(&mut self) {
        if let Some((place, fault)) = first_read(&self.notes) {
            let name = name_at(&self.names, place);
            let cause = Cause::System(fault);
            note(&mut self.noted, self.alloc, Deed::Read, name, cause);
        }
    }

    /// What failed first, as far as it was noted.
    pub fn trouble(&self) -> Option<Trouble<'_>> {
        match &self.noted {
            Some(noted) => Some(Trouble {
                deed: noted.deed,
                name: text_of(&noted.name),
                cause: &noted.cause,
            }),
            None => None,
        }
    }

    /// The last line that told a fault or a place where no chunk stands; empty where none did.
    pub fn last_fault(&self) -> &str {
        text_of(&self.fault_line)
    }
}

fn text_of(text: &Option<String>) -> &str {
    match text {
        Some(text) => text.as_str(),
        None => "",
    }
}

// The name at a place among those that were opened; empty where it isn't known.
fn name_at(names: &[String], place: usize) -> &str {
    match names.get(place) {
        Some(name) => name.as_str(),
        None => "",
    }
}

fn first_read(notes: &Option<Arc<Notes, Global>>) -> Option<(usize, io::Error)> {
    match notes {
        Some(notes) => notes.first_read(),
        None => None,
    }
}

// Notes what failed, unless something did before.
fn note(noted: &mut Option<Noted>, alloc: Global, deed: Deed, name: &str, cause: Cause) {
    if noted.is_none() {
        *noted = Some(Noted {
            deed,
            name: String::from_str(alloc, name).ok(),
            cause,
        });
    }
}

// Counts a failure.
fn fail(faults: &mut u64) -> Failed
    ensures counted { Rose faults.old faults.new }
    ensures later { faults.old ≤ faults.new }
{
    *faults = faults.saturating_add(1);
    Failed
}

impl<S: System + Drop, W: Write + Drop> Sink for RealDock<S, W> {
    ghost use Rattle.std.specs.Prelude.{None};
    ghost use Rattle.rec_base.specs.Docked.{BesideSink};
    ghost use Rattle.real_dock.specs.Outputs.{held_of};
    ghost use Rattle.std.specs.Io.Buffered.{writer_contents};

    ghost held = { λ d. held_of S.File.contents d.output };

    ghost write_faults = { λ d. d.write_faults };

    ghost Rest = { BesideSink (Unit {0}) };

    ghost rest = { λ d. record { contents = None; marks = None; asked = None; target = None; printed = writer_contents W.contents d.lines; open_faults = d.open_faults; print_faults = d.print_faults } };

    /// Answers `Failed` where nothing was created, or the file takes none of the bytes.
    fn write(&mut self, bytes: &[u8]) -> Result<usize, Failed> {
        match write_some(&mut self.output, bytes) {
            Ok(n) => {
                if let Some(notes) = &self.notes {
                    notes.count_written(n);
                }
                Ok(n)
            }
            Err(cause) => {
                let name = text_of(&self.target);
                note(&mut self.noted, self.alloc, Deed::Write, name, cause);
                Err(fail(&mut self.write_faults))
            }
        }
    }
}

impl<S: System + Drop, W: Write + Drop> Lines for RealDock<S, W> {
    ghost use Rattle.std.specs.Prelude.{None};
    ghost use Rattle.rec_base.specs.Docked.{BesideLines};
    ghost use Rattle.real_dock.specs.Outputs.{held_of};
    ghost use Rattle.std.specs.Io.Buffered.{writer_contents};

    ghost printed = { λ d. writer_contents W.contents d.lines };

    ghost print_faults = { λ d. d.print_faults };

    ghost Rest = { BesideLines (Unit {0}) };

    ghost rest = { λ d. record { contents = None; marks = None; asked = None; target = None; held = held_of S.File.contents d.output; open_faults = d.open_faults; write_faults = d.write_faults } };

    /// Answers `Failed` where standard output doesn't take the lines that waited before this one, or,
    /// where there is no memory for this one, not all of it.
    fn say(&mut self, line: &str) -> Result<(), Failed> {
        if line.starts_with("fault ") || line.starts_with("bad ") {
            self.fault_line = line.to_string(self.alloc).ok();
        }
        match say_into(&mut self.lines, line) {
            Ok(()) => Ok(()),
            Err(cause) => {
                note(
                    &mut self.noted,
                    self.alloc,
                    Deed::Say,
                    "standard output",
                    cause,
                );
                Err(fail(&mut self.print_faults))
            }
        }
    }
}

impl<S: System + Drop, W: Write + Drop> Dock for RealDock<S, W>
where
    S::File: Send,
    S::Peer: Send,
{
    ghost use Rattle.std.specs.Prelude.{None, refl};
    ghost use Rattle.std.proofs.Common.{ap};
    ghost use Rattle.rec_base.specs.Docked.{BesideLines, BesideSink};

    type Source = RealSource<S::File, S::Peer>;

    ghost contents = { λ _. None };

    ghost input_mark = { λ _. tt };

    ghost marks = { λ _. None };

    ghost asked = { λ _. None };

    ghost target = { λ _. None };

    ghost open_faults = { λ d. d.open_faults };

    /// Answers `Failed` where there is no such file to read or no memory to remember it by; and where the
    /// peer can't be found or reached, or doesn't take the whole request.
    fn open(&mut self, name: &Name) -> Result<RealSource<S::File, S::Peer>, Failed> {
        let place = self.names.len();
        let opened = match remember_name(self.alloc, name, &mut self.names) {
            Ok(()) => open_origin(&self.system, name, &mut self.inputs, &self.notes),
            Err(AllocError) => Err(Cause::Memory),
        };
        match opened {
            Ok(origin) => Ok(RealSource::new(origin, place, share(&self.notes))),
            Err(cause) => {
                let text = name_at(&self.names, place);
                note(&mut self.noted, self.alloc, deed_of(name), text, cause);
                Err(fail(&mut self.open_faults))
            }
        }
    }

    /// Makes a new file, or takes an empty file, a device or a pipe that is there. Answers `Failed` where
    /// the system does neither, where the file that is there is one that this dock has opened, where it is
    /// a regular file that has bytes, and where there is an output already; all stay as they are then.
    fn create(&mut self, name: &Word) -> Result<(), Failed> {
        if self.output.is_some() {
            return Err(fail(&mut self.open_faults));
        }
        match create_output(&self.system, name.text(), &self.inputs) {
            Ok(output) => {
                self.output = Some(output);
                self.target = name.text().to_string(self.alloc).ok();
                Ok(())
            }
            Err(cause) => {
                note(
                    &mut self.noted,
                    self.alloc,
                    Deed::Create,
                    name.text(),
                    cause,
                );
                Err(fail(&mut self.open_faults))
            }
        }
    }

    ghost mark_keeps_input_mark = { λ s t h. refl };

    ghost write_keeps_contents = { λ d e h. refl };

    ghost write_keeps_marks = { λ d e h. refl };

    ghost write_keeps_asked = { λ d e h. refl };

    ghost write_keeps_target = { λ d e h. refl };

    ghost write_keeps_printed = { λ d e h. ap (λ (r : BesideSink (Unit {0})). r.printed) h };

    ghost write_keeps_open_faults = { λ d e h. ap (λ (r : BesideSink (Unit {0})). r.open_faults) h };

    ghost write_keeps_print_faults = { λ d e h. ap (λ (r : BesideSink (Unit {0})). r.print_faults) h };

    ghost say_keeps_contents = { λ d e h. refl };

    ghost say_keeps_marks = { λ d e h. refl };

    ghost say_keeps_asked = { λ d e h. refl };

    ghost say_keeps_target = { λ d e h. refl };

    ghost say_keeps_held = { λ d e h. ap (λ (r : BesideLines (Unit {0})). r.held) h };

    ghost say_keeps_open_faults = { λ d e h. ap (λ (r : BesideLines (Unit {0})). r.open_faults) h };

    ghost say_keeps_write_faults = { λ d e h. ap (λ (r : BesideLines (Unit {0})). r.write_faults) h };
}

impl<S: System + Drop, W: Write + Drop> Settle for RealDock<S, W>
where
    S::File: Send,
    S::Peer: Send,
{
    ghost use Rattle.std.specs.Io.Buffered.{writer_inner};
    ghost use Rattle.real_dock.specs.Outputs.{is_forced};

    ghost is_forced = { λ d. is_forced d.output };

    ghost out = { λ d. W.contents (writer_inner d.lines) };

    /// Answers `Failed` where the system can't force the output to the disk, where it lies on one, or the
    /// folder that it was made in.
    fn force(&mut self) -> Result<(), Failed> {
        match force_out(&mut self.output) {
            Ok(()) => Ok(()),
            Err(cause) => {
                let name = text_of(&self.target);
                note(&mut self.noted, self.alloc, Deed::Force, name, cause);
                Err(fail(&mut self.write_faults))
            }
        }
    }

    /// Takes the sign of life off the terminal, and puts out the lines that wait.
    fn flush(&mut self) -> Result<(), Failed> {
        if let Some(notes) = &self.notes {
            notes.clear();
        }
        match self.lines.flush() {
            Ok(()) => Ok(()),
            Err(fault) => {
                let cause = Cause::System(fault);
                note(
                    &mut self.noted,
                    self.alloc,
                    Deed::Say,
                    "standard output",
                    cause,
                );
                Err(fail(&mut self.print_faults))
            }
        }
    }
}

fn share(notes: &Option<Arc<Notes, Global>>) -> Option<Arc<Notes, Global>> {
    match notes {
        Some(notes) => Arc::try_clone(notes).ok(),
        None => None,
    }
}

// Remembers a name as people read it.
fn remember_name(alloc: Global, name: &Name, names: &mut Vec<String>) -> Result<(), AllocError> {
    let text = match name {
        Name::File(path) => path.text().to_string(alloc)?,
        Name::Peer { host, port, .. } => {
            let host = host.text();
            format!(in alloc; "{host} port {port}")?
        }
    };
    names.push(text)?;
    Ok(())
}

fn deed_of(name: &Name) -> Deed {
    match name {
        Name::File(_) => Deed::Open,
        Name::Peer { .. } => Deed::Connect,
    }
}

// What has this name. A file is remembered as an input.
fn open_origin<S: System>(
    system: &S,
    name: &Name,
    inputs: &mut Vec<Identity>,
    notes: &Option<Arc<Notes, Global>>,
) -> Result<Origin<S::File, S::Peer>, Cause>
    ensures { OnOk result (Remembers name.now inputs.old.items inputs.new.items) }
{
    match name {
        Name::File(path) => {
            let (file, found) = open_input(system, path.text(), inputs)?;
            expect(
                notes,
                if found.is_file() {
                    Some(found.len())
                } else {
                    None
                },
            );
            Ok(Origin::File(file))
        }
        Name::Peer {
            host,
            port,
            request,
        } => {
            let peer = open_peer(system, host.text(), *port, request.bytes())?;
            expect(notes, None);
            Ok(Origin::Peer(peer))
        }
    }
}

fn expect(notes: &Option<Arc<Notes, Global>>, bytes: Option<u64>) {
    if let Some(notes) = notes {
        notes.expect(bytes);
    }
}

// The file of a path, which is remembered as an input, and what the system tells of it.
fn open_input<S: System>(
    system: &S,
    path: &str,
    inputs: &mut Vec<Identity>,
) -> Result<(S::File, Metadata), Cause>
    ensures { OnOk result ((input : Identity) × (inputs.new.items ≡ inputs.old.items ++ (input ∷ []))) }
{
    let mut how = OpenOptions::new();
    how.read(true);
    let file = match system.open_file(&how, path) {
        Ok(file) => file,
        Err(fault) => return Err(Cause::System(fault)),
    };
    let found = match file.metadata() {
        Ok(found) => found,
        Err(fault) => return Err(Cause::System(fault)),
    };
    match inputs.push(identity_of(&found)) {
        Ok(()) => Ok((file, found)),
        Err(_) => Err(Cause::Memory),
    }
}
