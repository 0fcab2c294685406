//! Opens a file and takes its magic, as every command on a file begins.

ghost use Rattle.std.specs.Prelude.{◌≡◌, ◌≤◌, ◌⊎◌, List, ℕ, IsErr, IsErrOf, IfOk, None, false, []};
ghost use Rattle.dock_calls.specs.Asking.{FailsAt, HasReadFault};
ghost use Rattle.rec_base.specs.Asked.{AsksAll, AsksFront};
ghost use Rattle.file_call.specs.Orders.{input_order};
ghost use Rattle.rec_base.specs.Contents.{IsMarked};
ghost use Rattle.rec_base.specs.declared.name.Name.TheVariants.{File};
ghost use Rattle.file_reader.specs.FileInlet.{outlook};
ghost use Rattle.file_call.specs.Files.{IsBegun, IsOtherFile};

use crate::fault::OpenFault;
use file_reader::{FileFault, FileReader};
use rec_base::{Dock, Failed, Lines, Name, Sink, Source, Word};
use std::alloc::Global;

/// The most bytes of a file that count.
pub(crate) const BYTE_LIMIT: u64 = 1_099_511_627_776;

/// Opens the file of this name, and takes its magic.
pub(crate) fn open_file<D: Dock>(
    alloc: Global,
    dock: &mut D,
    name: &Word,
) -> Result<FileReader<D::Source>, OpenFault>
    ensures begun { IfOk result (λ r. IsBegun D.Source.left D.Source.faults D.Source.mark (D.contents dock.old) name.now r.source r.file) }
    ensures fresh { IfOk result (λ r. ((outlook r.file).is_over ≡ false) × (r.file.context ≡ []) × (r.file.place ≡ 4) × (r.file.last ≡ []) × (r.file.byte_limit ≡ 1_099_511_627_776)) }
    ensures start { IfOk result (λ r. (r.file.ahead ≡ []) × (r.skipped ≡ None)) }
    ensures not_xdf { IsErrOf result OpenFault.NotXdf → IsOtherFile D.Source.left (D.contents dock.old) name.now }
    ensures failed { IsErrOf result OpenFault.Open → FailsAt (D.asked dock.old) (D.asked dock.new) (input_order name.now) (D.open_faults dock.old) (D.open_faults dock.new)
        ⊎ HasReadFault D.Source.left D.Source.faults D.Source.mark D.input_mark (D.contents dock.old) (D.marks dock.old) (File name.now) 0 }
    ensures none_else { IsErr result → IsErrOf result OpenFault.NotXdf ⊎ IsErrOf result OpenFault.Open ⊎ IsErrOf result OpenFault.Memory }
    ensures marked { IfOk result (λ r. IsMarked (D.marks dock.old) (File name.now) 0 (D.input_mark r.source)) }
    ensures asks { AsksFront (D.asked dock.old) (D.asked dock.new) (input_order name.now) }
    ensures asks_all { (IsErrOf result OpenFault.Memory → ⊥) → AsksAll (D.asked dock.old) (D.asked dock.new) (input_order name.now) }
    ensures quiet { (IsErrOf result OpenFault.Open → ⊥) → D.open_faults dock.new ≡ D.open_faults dock.old }
    ensures target { D.target dock.new ≡ D.target dock.old }
    ensures held { D.held dock.new ≡ D.held dock.old }
    ensures printed { D.printed dock.new ≡ D.printed dock.old }
    ensures write_faults { D.write_faults dock.new ≡ D.write_faults dock.old }
    ensures print_faults { D.print_faults dock.new ≡ D.print_faults dock.old }
{
    let word = match Word::from_bytes(alloc, name.bytes()) {
        Ok(word) => word,
        Err(_) => return Err(OpenFault::Memory),
    };
    let source = match dock.open(&Name::File(word)) {
        Ok(source) => source,
        Err(Failed) => return Err(OpenFault::Open),
    };
    match FileReader::open(alloc, source, BYTE_LIMIT) {
        Ok(reader) => Ok(reader),
        Err(FileFault::NotXdf) => Err(OpenFault::NotXdf),
        Err(FileFault::ReadFault) => Err(OpenFault::Open),
        Err(FileFault::Memory) => Err(OpenFault::Memory),
    }
}
