//! An input that is read whole.

ghost use Rattle.std.specs.Prelude.{◌≡◌, ◌≤◌, ◌<◌, ◌⊎◌, ◌∷◌, [], List, ℕ, length, Some, IfOk, OnOk, OnErr, IsErrOf};
ghost use Rattle.rec_base.specs.Asked.{AsksAll, AsksFront};
ghost use Rattle.rec_base.specs.Contents.{Opens, OpensMarked, IsInput};
ghost use Rattle.rec_base.specs.declared.asked.Asked.TheVariants.{Opening};
ghost use Rattle.rec_base.specs.declared.name.Name.{Name as NameValue};
ghost use Rattle.dock_calls.specs.Asking.{FailsAt, HasReadFault};
ghost use Rattle.dock_calls.specs.Inputs.{KeepsOthers};

use crate::fault::InputFault;
use rec_base::{Blob, DocFault, Dock, Failed, Lines, Name, Sink, Source, Word, read_document};
use std::alloc::Global;

/// Opens the file at this path and reads it to its end, if it has no more than `limit` bytes.
///
/// Where contents are told, the text is the first one at the path, which is then taken off.
/// `TooLong` comes only where the file is longer than the limit, `Open` where the opening or a read of
/// the source that was opened failed, `Memory` for want of memory alone. This project's own.
pub fn read_input<D: Dock>(
    alloc: Global,
    dock: &mut D,
    name: &Word,
    limit: u64,
) -> Result<Blob, InputFault>
    ensures text { IfOk result (λ text. Opens (D.contents dock.old) (D.contents dock.new) (NameValue.File name.now) (Some text) × (length text ≤ limit)) }
    ensures too_long { IsErrOf result InputFault.TooLong → (text : List ℕ) × IsInput (D.contents dock.old) (NameValue.File name.now) 0 text × (limit < length text) }
    ensures failed { IsErrOf result InputFault.Open → FailsAt (D.asked dock.old) (D.asked dock.new) (Opening (NameValue.File name.now) ∷ []) (D.open_faults dock.old) (D.open_faults dock.new)
        ⊎ HasReadFault D.Source.left D.Source.faults D.Source.mark D.input_mark (D.contents dock.old) (D.marks dock.old) (NameValue.File name.now) 0 }
    ensures none_else { OnErr result (IsErrOf result InputFault.TooLong ⊎ IsErrOf result InputFault.Open ⊎ IsErrOf result InputFault.Memory) }
    ensures others { KeepsOthers (D.contents dock.old) (D.contents dock.new) (NameValue.File name.now) }
    ensures marked { OnOk result ((source : D.Source) × OpensMarked (D.marks dock.old) (D.marks dock.new) (NameValue.File name.now) (D.input_mark source)) }
    ensures asks { AsksFront (D.asked dock.old) (D.asked dock.new) (Opening (NameValue.File name.now) ∷ []) }
    ensures asked { (IsErrOf result InputFault.Memory → ⊥) → AsksAll (D.asked dock.old) (D.asked dock.new) (Opening (NameValue.File name.now) ∷ []) }
    ensures quiet { (IsErrOf result InputFault.Open → ⊥) → D.open_faults dock.new ≡ D.open_faults dock.old }
    ensures target { D.target dock.new ≡ D.target dock.old }
    ensures held { D.held dock.new ≡ D.held dock.old }
    ensures printed { D.printed dock.new ≡ D.printed dock.old }
    ensures write_faults { D.write_faults dock.new ≡ D.write_faults dock.old }
    ensures print_faults { D.print_faults dock.new ≡ D.print_faults dock.old }
{
    let word = match Word::from_bytes(alloc, name.bytes()) {
        Ok(word) => word,
        Err(_) => return Err(InputFault::Memory),
    };
    let mut source = match dock.open(&Name::File(word)) {
        Ok(source) => source,
        Err(Failed) => return Err(InputFault::Open),
    };
    match read_document(alloc, &mut source, limit) {
        Ok(text) => Ok(text),
        Err(DocFault::TooLong) => Err(InputFault::TooLong),
        Err(DocFault::ReadFault) => Err(InputFault::Open),
        Err(DocFault::Memory) => Err(InputFault::Memory),
    }
}
