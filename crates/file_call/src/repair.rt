//! `repair`: what is whole in a file, in another one.

ghost use Rattle.std.specs.Prelude.{◌≡◌, ◌⊎◌, ℕ, [], None, false, IsTrue, IsErr, IsErrOf, IfOk, OnOk, codes};
ghost use Rattle.dock_calls.specs.Asking.{FailsAt, HasReadFault, IsCaused};
ghost use Rattle.rec_base.specs.Asked.{AsksAll, AsksFront};
ghost use Rattle.file_call.specs.Orders.{repair_order};
ghost use Rattle.rec_base.specs.Causes.{Blames, Rose};
ghost use Rattle.file_call.specs.Statuses.{is_all_asked, is_all_said};
ghost use Rattle.std.specs.Io.KnownBytes.{Appends};
ghost use Rattle.rec_base.specs.Known.{AppendsFront, Becomes, Loses, printed_line};
ghost use Rattle.rec_base.specs.declared.name.Name.TheVariants.{File};
ghost use Rattle.dock_calls.specs.Said.{SaysFault};
ghost use Rattle.file_reader.specs.FileInlet.{outlook};
ghost use Rattle.file_call.specs.Files.{IsOtherFile, IsToldOther};
ghost use Rattle.file_call.specs.Repaired.{is_repair_status, is_repaired, repaired_line, repaired_status};
ghost use Rattle.file_call.specs.Searched.{IsCut, IsFailed, IsKept, IsLong, WroteSo};

use crate::fault::{OpenFault, RepairFault};
use crate::open::open_file;
use boundary_search::Salvager;
use dock_calls::{say_fault, say_line};
use file_reader::FileReader;
use rec_base::{Dock, Failed, Lines, Sink, Source, Word};
use std::alloc::Global;
use xdf_repair::{Repaired, repair_front, repair_search};

/// What a repair kept: so many chunks, which are so many bytes with the magic. So many bytes of the
/// file it didn't keep.
#[derive(Clone, Copy, Debug, PartialEq, Eq)]
pub(crate) struct Kept {
    pub(crate) chunks: u64,
    pub(crate) bytes: u64,
    pub(crate) skipped: u64,
}

// What was kept, or why not all that could be.
fn kept_of(repaired: Repaired) -> Result<Kept, RepairFault>
    ensures done { IfOk result (λ k. repaired ≡ Repaired.Done k.chunks k.bytes k.skipped) }
    ensures read { IsErrOf result RepairFault.Read → repaired ≡ Repaired.ReadFault }
    ensures write { IsErrOf result RepairFault.Write → repaired ≡ Repaired.WriteFault }
    ensures size_limit { IsErrOf result RepairFault.SizeLimit → repaired ≡ Repaired.SizeLimit }
    ensures memory { IsErrOf result RepairFault.Memory → repaired ≡ Repaired.Memory }
    ensures none_else { IsErr result → IsErrOf result RepairFault.Read ⊎ IsErrOf result RepairFault.Write ⊎ IsErrOf result RepairFault.SizeLimit ⊎ IsErrOf result RepairFault.Memory }
{
    match repaired {
        Repaired::Done {
            chunks,
            bytes,
            skipped,
        } => Ok(Kept {
            chunks,
            bytes,
            skipped,
        }),
        Repaired::ReadFault => Err(RepairFault::Read),
        Repaired::WriteFault => Err(RepairFault::Write),
        Repaired::SizeLimit => Err(RepairFault::SizeLimit),
        Repaired::Memory => Err(RepairFault::Memory),
    }
}

// Writes what is whole in a file of which just the magic was taken: up to the first damage, or, by a
// search, behind it too.
fn write_whole<S: Source + Drop, K: Sink>(
    search: bool,
    reader: FileReader<S>,
    sink: &mut K,
) -> Repaired
    requires fresh { ((outlook reader.file).is_over ≡ false) × (reader.file.context ≡ []) × (reader.file.place ≡ 4) × (reader.file.last ≡ []) × (reader.file.ahead ≡ []) × (reader.skipped ≡ None) }
    requires limit { reader.file.byte_limit ≡ 1_099_511_627_776 }
    ensures wrote { (last : S) × WroteSo search (S.left reader.source) (S.left last) (K.held sink.old) (K.held sink.new) 1_099_511_627_776 result
        × (S.mark last ≡ S.mark reader.source) × (result ≡ Repaired.ReadFault → Rose (S.faults reader.source) (S.faults last)) × Loses (S.left reader.source) (S.left last) }
    ensures write_fault { Blames (result ≡ Repaired.WriteFault) (K.write_faults sink.old) (K.write_faults sink.new) }
    ensures rest { K.rest sink.new ≡ K.rest sink.old }
{
    let mut reader = reader;
    if search {
        let mut salvager = Salvager::over(reader);
        return repair_search(&mut salvager, sink);
    }
    repair_front(&mut reader, sink)
}

// Opens the input, creates the output, and writes what is whole: up to the first damage, or behind it
// too.
fn write_kept<D: Dock>(
    alloc: Global,
    search: bool,
    from: &Word,
    to: &Word,
    dock: &mut D,
) -> Result<Kept, RepairFault>
    ensures kept { IfOk result (λ k. IsKept search D.Source.left (D.contents dock.old) from.now to.now (D.target dock.old) (D.target dock.new) (D.held dock.old) (D.held dock.new) k.chunks k.bytes k.skipped) }
    ensures not_xdf { IsErrOf result RepairFault.NotXdf → IsOtherFile D.Source.left (D.contents dock.old) from.now }
    ensures open { IsErrOf result RepairFault.Open → FailsAt (D.asked dock.old) (D.asked dock.new) (repair_order from.now to.now) (D.open_faults dock.old) (D.open_faults dock.new)
        ⊎ HasReadFault D.Source.left D.Source.faults D.Source.mark D.input_mark (D.contents dock.old) (D.marks dock.old) (File from.now) 0 }
    ensures untouched { IsErrOf result RepairFault.NotXdf ⊎ IsErrOf result RepairFault.Open ⊎ IsErrOf result RepairFault.NoInput
        → (D.target dock.new ≡ D.target dock.old) × (D.held dock.new ≡ D.held dock.old) × (D.write_faults dock.new ≡ D.write_faults dock.old) }
    ensures read { IsErrOf result RepairFault.Read
        → IsFailed search D.Source.left D.Source.faults D.Source.mark (D.contents dock.old) from.now to.now (D.target dock.old) (D.target dock.new) (D.held dock.old) (D.held dock.new) }
    ensures write { IsErrOf result RepairFault.Write → (created : D)
        × Becomes (D.target dock.old) (D.target created) to.now × (D.write_faults created ≡ D.write_faults dock.old) × Rose (D.write_faults created) (D.write_faults dock.new)
        × IsCut search D.Source.left (D.contents dock.old) from.now to.now (D.target dock.old) (D.target dock.new) (D.held dock.old) (D.held dock.new) }
    ensures size_limit { IsErrOf result RepairFault.SizeLimit
        → IsLong search D.Source.left (D.contents dock.old) from.now to.now (D.target dock.old) (D.target dock.new) (D.held dock.old) (D.held dock.new) }
    ensures memory { IsErrOf result RepairFault.Memory
        → IsCut search D.Source.left (D.contents dock.old) from.now to.now (D.target dock.old) (D.target dock.new) (D.held dock.old) (D.held dock.new) }
    ensures none_else { IsErr result → IsErrOf result RepairFault.NotXdf ⊎ IsErrOf result RepairFault.Open ⊎ IsErrOf result RepairFault.NoInput ⊎ IsErrOf result RepairFault.Read
        ⊎ IsErrOf result RepairFault.Write ⊎ IsErrOf result RepairFault.SizeLimit ⊎ IsErrOf result RepairFault.Memory }
    ensures read_cause { IsErrOf result RepairFault.Read → HasReadFault D.Source.left D.Source.faults D.Source.mark D.input_mark (D.contents dock.old) (D.marks dock.old) (File from.now) 0 }
    ensures asks { AsksFront (D.asked dock.old) (D.asked dock.new) (repair_order from.now to.now) }
    ensures asks_all { (IsErrOf result RepairFault.NotXdf ⊎ IsErrOf result RepairFault.Open ⊎ IsErrOf result RepairFault.NoInput → ⊥) → AsksAll (D.asked dock.old) (D.asked dock.new) (repair_order from.now to.now) }
    ensures opens { (IsErrOf result RepairFault.Open → ⊥) → D.open_faults dock.new ≡ D.open_faults dock.old }
    ensures writes { Blames (IsErrOf result RepairFault.Write) (D.write_faults dock.old) (D.write_faults dock.new) }
    ensures printed { D.printed dock.new ≡ D.printed dock.old }
    ensures print_faults { D.print_faults dock.new ≡ D.print_faults dock.old }
{
    let reader = match open_file(alloc, dock, from) {
        Ok(reader) => reader,
        Err(OpenFault::NotXdf) => return Err(RepairFault::NotXdf),
        Err(OpenFault::Open) => return Err(RepairFault::Open),
        Err(OpenFault::Memory) => return Err(RepairFault::NoInput),
    };
    match dock.create(to) {
        Ok(()) => {}
        Err(Failed) => return Err(RepairFault::Open),
    }
    kept_of(write_whole(search, reader, dock))
}

// Says what was kept.
fn say_kept<D: Dock>(alloc: Global, kept: Kept, dock: &mut D) -> Result<(), RepairFault>
    ensures ok { OnOk result (Appends (D.printed dock.old) (D.printed dock.new) (printed_line (repaired_line kept.chunks kept.bytes kept.skipped))) }
    ensures say { IsErrOf result RepairFault.Say → AppendsFront (D.printed dock.old) (D.printed dock.new) (printed_line (repaired_line kept.chunks kept.bytes kept.skipped))
        × Rose (D.print_faults dock.old) (D.print_faults dock.new) }
    ensures memory { IsErrOf result RepairFault.Memory → (D.printed dock.new ≡ D.printed dock.old) × (D.print_faults dock.new ≡ D.print_faults dock.old) }
    ensures none_else { IsErr result → IsErrOf result RepairFault.Say ⊎ IsErrOf result RepairFault.Memory }
    ensures says { Blames (IsErrOf result RepairFault.Say) (D.print_faults dock.old) (D.print_faults dock.new) }
    ensures rest { D.Lines.rest dock.new ≡ D.Lines.rest dock.old }
{
    let Kept {
        chunks,
        bytes,
        skipped,
    } = kept;
    let line = match format!(in alloc; "kept {chunks} bytes {bytes} skipped {skipped}") {
        Ok(line) => line,
        Err(_) => return Err(RepairFault::Memory),
    };
    match say_line(dock, line.as_str()) {
        Ok(()) => Ok(()),
        Err(Failed) => Err(RepairFault::Say),
    }
}

// Repairs a file, and answers how many bytes it didn't keep.
fn repair<D: Dock>(
    alloc: Global,
    search: bool,
    from: &Word,
    to: &Word,
    dock: &mut D,
) -> Result<u64, RepairFault>
    ensures repaired { IfOk result (λ skipped. (chunks : ℕ) × (bytes : ℕ)
        × IsKept search D.Source.left (D.contents dock.old) from.now to.now (D.target dock.old) (D.target dock.new) (D.held dock.old) (D.held dock.new) chunks bytes skipped
        × Appends (D.printed dock.old) (D.printed dock.new) (printed_line (repaired_line chunks bytes skipped))) }
    ensures not_xdf { IsErrOf result RepairFault.NotXdf → IsOtherFile D.Source.left (D.contents dock.old) from.now }
    ensures open { IsErrOf result RepairFault.Open → FailsAt (D.asked dock.old) (D.asked dock.new) (repair_order from.now to.now) (D.open_faults dock.old) (D.open_faults dock.new)
        ⊎ HasReadFault D.Source.left D.Source.faults D.Source.mark D.input_mark (D.contents dock.old) (D.marks dock.old) (File from.now) 0 }
    ensures untouched { IsErrOf result RepairFault.NotXdf ⊎ IsErrOf result RepairFault.Open ⊎ IsErrOf result RepairFault.NoInput
        → (D.target dock.new ≡ D.target dock.old) × (D.held dock.new ≡ D.held dock.old) × (D.write_faults dock.new ≡ D.write_faults dock.old) }
    ensures read { IsErrOf result RepairFault.Read
        → IsFailed search D.Source.left D.Source.faults D.Source.mark (D.contents dock.old) from.now to.now (D.target dock.old) (D.target dock.new) (D.held dock.old) (D.held dock.new) }
    ensures write { IsErrOf result RepairFault.Write → (created : D)
        × Becomes (D.target dock.old) (D.target created) to.now × (D.write_faults created ≡ D.write_faults dock.old) × Rose (D.write_faults created) (D.write_faults dock.new)
        × IsCut search D.Source.left (D.contents dock.old) from.now to.now (D.target dock.old) (D.target dock.new) (D.held dock.old) (D.held dock.new) }
    ensures size_limit { IsErrOf result RepairFault.SizeLimit
        → IsLong search D.Source.left (D.contents dock.old) from.now to.now (D.target dock.old) (D.target dock.new) (D.held dock.old) (D.held dock.new) }
    ensures say { IsErrOf result RepairFault.Say → Rose (D.print_faults dock.old) (D.print_faults dock.new) × (chunks : ℕ) × (bytes : ℕ) × (skipped : ℕ)
        × IsKept search D.Source.left (D.contents dock.old) from.now to.now (D.target dock.old) (D.target dock.new) (D.held dock.old) (D.held dock.new) chunks bytes skipped
        × AppendsFront (D.printed dock.old) (D.printed dock.new) (printed_line (repaired_line chunks bytes skipped)) }
    ensures memory { IsErrOf result RepairFault.Memory
        → IsCut search D.Source.left (D.contents dock.old) from.now to.now (D.target dock.old) (D.target dock.new) (D.held dock.old) (D.held dock.new) }
    ensures read_cause { IsErrOf result RepairFault.Read → HasReadFault D.Source.left D.Source.faults D.Source.mark D.input_mark (D.contents dock.old) (D.marks dock.old) (File from.now) 0 }
    ensures asks { AsksFront (D.asked dock.old) (D.asked dock.new) (repair_order from.now to.now) }
    ensures asks_all { (IsErrOf result RepairFault.NotXdf ⊎ IsErrOf result RepairFault.Open ⊎ IsErrOf result RepairFault.NoInput → ⊥) → AsksAll (D.asked dock.old) (D.asked dock.new) (repair_order from.now to.now) }
    ensures opens { (IsErrOf result RepairFault.Open → ⊥) → D.open_faults dock.new ≡ D.open_faults dock.old }
    ensures writes { Blames (IsErrOf result RepairFault.Write) (D.write_faults dock.old) (D.write_faults dock.new) }
    ensures says { Blames (IsErrOf result RepairFault.Say) (D.print_faults dock.old) (D.print_faults dock.new) }
    ensures none_said { IsErr result → IsErrOf result RepairFault.Say ⊎ ((D.printed dock.new ≡ D.printed dock.old) × (D.print_faults dock.new ≡ D.print_faults dock.old)) }
{
    let kept = match write_kept(alloc, search, from, to, dock) {
        Ok(kept) => kept,
        Err(fault) => return Err(fault),
    };
    match say_kept(alloc, kept, dock) {
        Ok(()) => Ok(kept.skipped),
        Err(fault) => Err(fault),
    }
}

/// Repairs a file, and answers the status.
pub(crate) fn repair_status<D: Dock>(
    alloc: Global,
    search: bool,
    from: &Word,
    to: &Word,
    dock: &mut D,
) -> u8
    ensures statuses { IsTrue (is_repair_status result) }
    ensures repaired { IsTrue (is_repaired result) → (chunks : ℕ) × (bytes : ℕ) × (skipped : ℕ) × (result ≡ repaired_status skipped)
        × IsKept search D.Source.left (D.contents dock.old) from.now to.now (D.target dock.old) (D.target dock.new) (D.held dock.old) (D.held dock.new) chunks bytes skipped
        × Appends (D.printed dock.old) (D.printed dock.new) (printed_line (repaired_line chunks bytes skipped)) }
    ensures not_xdf { result ≡ 3 → IsOtherFile D.Source.left (D.contents dock.old) from.now × IsToldOther (D.contents dock.old) from.now
        × (D.target dock.new ≡ D.target dock.old) × (D.held dock.new ≡ D.held dock.old)
        × SaysFault (D.printed dock.old) (D.printed dock.new) (D.print_faults dock.old) (D.print_faults dock.new) (codes "fault 3") }
    ensures open_fault { result ≡ 4 → (((FailsAt (D.asked dock.old) (D.asked dock.new) (repair_order from.now to.now) (D.open_faults dock.old) (D.open_faults dock.new)
        ⊎ HasReadFault D.Source.left D.Source.faults D.Source.mark D.input_mark (D.contents dock.old) (D.marks dock.old) (File from.now) 0)
        × (D.target dock.new ≡ D.target dock.old) × (D.held dock.new ≡ D.held dock.old))
        ⊎ (HasReadFault D.Source.left D.Source.faults D.Source.mark D.input_mark (D.contents dock.old) (D.marks dock.old) (File from.now) 0
        × IsFailed search D.Source.left D.Source.faults D.Source.mark (D.contents dock.old) from.now to.now (D.target dock.old) (D.target dock.new) (D.held dock.old) (D.held dock.new)))
        × SaysFault (D.printed dock.old) (D.printed dock.new) (D.print_faults dock.old) (D.print_faults dock.new) (codes "fault 4") }
    ensures write_fault { result ≡ 5 → ((created : D)
        × Becomes (D.target dock.old) (D.target created) to.now × (D.write_faults created ≡ D.write_faults dock.old) × Rose (D.write_faults created) (D.write_faults dock.new)
        × IsCut search D.Source.left (D.contents dock.old) from.now to.now (D.target dock.old) (D.target dock.new) (D.held dock.old) (D.held dock.new))
        × SaysFault (D.printed dock.old) (D.printed dock.new) (D.print_faults dock.old) (D.print_faults dock.new) (codes "fault 5") }
    ensures size_limit { result ≡ 7
        → IsLong search D.Source.left (D.contents dock.old) from.now to.now (D.target dock.old) (D.target dock.new) (D.held dock.old) (D.held dock.new)
        × SaysFault (D.printed dock.old) (D.printed dock.new) (D.print_faults dock.old) (D.print_faults dock.new) (codes "fault 7") }
    ensures say_fault { result ≡ 8 → Rose (D.print_faults dock.old) (D.print_faults dock.new) × (chunks : ℕ) × (bytes : ℕ) × (skipped : ℕ)
        × IsKept search D.Source.left (D.contents dock.old) from.now to.now (D.target dock.old) (D.target dock.new) (D.held dock.old) (D.held dock.new) chunks bytes skipped
        × AppendsFront (D.printed dock.old) (D.printed dock.new) (printed_line (repaired_line chunks bytes skipped)) }
    ensures memory { result ≡ 9 → (((D.target dock.new ≡ D.target dock.old) × (D.held dock.new ≡ D.held dock.old))
        ⊎ IsCut search D.Source.left (D.contents dock.old) from.now to.now (D.target dock.old) (D.target dock.new) (D.held dock.old) (D.held dock.new))
        × SaysFault (D.printed dock.old) (D.printed dock.new) (D.print_faults dock.old) (D.print_faults dock.new) (codes "fault 9") }
    ensures caused { IsCaused (is_all_asked result) (is_all_said result) (repair_order from.now to.now) (D.asked dock.old) (D.asked dock.new) (D.open_faults dock.old) (D.open_faults dock.new)
        (D.write_faults dock.old) (D.write_faults dock.new) (D.print_faults dock.old) (D.print_faults dock.new) result }
{
    match repair(alloc, search, from, to, dock) {
        Ok(0) => 0,
        Ok(_) => 1,
        Err(RepairFault::NotXdf) => {
            say_fault(dock, "fault 3");
            3
        }
        Err(RepairFault::Open) => {
            say_fault(dock, "fault 4");
            4
        }
        Err(RepairFault::Read) => {
            say_fault(dock, "fault 4");
            4
        }
        Err(RepairFault::Write) => {
            say_fault(dock, "fault 5");
            5
        }
        Err(RepairFault::SizeLimit) => {
            say_fault(dock, "fault 7");
            7
        }
        Err(RepairFault::Say) => 8,
        Err(RepairFault::NoInput) => {
            say_fault(dock, "fault 9");
            9
        }
        Err(RepairFault::Memory) => {
            say_fault(dock, "fault 9");
            9
        }
    }
}
