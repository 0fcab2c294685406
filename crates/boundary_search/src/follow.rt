//! What a salvager does by the answer of the reader beneath.

ghost use Rattle.std.specs.Prelude.{◌≡◌, ◌≤◌, ◌+◌, ◌^◌, ◌⊎◌, ℕ, List, [], length, Option, None, IsTrue, false};
ghost use Rattle.std.specs.Io.KnownBytes.{IsAtEnd};
ghost use Rattle.rec_base.specs.Causes.{Blames, Rose};
ghost use Rattle.file_reader.specs.AsNext.{as_next, next_in};
ghost use Rattle.file_reader.specs.FileInlet.{FileInlet};
ghost use Rattle.boundary_search.specs.Following.{IsReadSo};
ghost use Rattle.boundary_search.specs.Salvage.{IsFound, Salvage, told_end};

use crate::search::skip_range;
use crate::step::{SalvageEnd, Salvaged};
use file_reader::{FileReader, Next, Passed};
use rec_base::Source;

/// An end, as it is told.
pub(crate) fn told_end(end: SalvageEnd) -> Salvaged
    ensures { result ≡ told_end end }
{
    match end {
        SalvageEnd::End => Salvaged::End,
        SalvageEnd::ReadFault => Salvaged::ReadFault,
        SalvageEnd::SizeLimit => Salvaged::SizeLimit,
    }
}

/// What stands at the place; once the input has ended, of the bytes that were taken.
pub(crate) fn read_on<S: Source>(reader: &mut FileReader<S>, ended: bool) -> Passed
    ensures read { IsReadSo (S.left reader.old.source) (S.left reader.new.source) ended reader.old.file reader.new.file (next_in reader.old.file reader.new.file result) }
    ensures still { IsTrue ended → reader.new.source ≡ reader.old.source }
    ensures cause { Blames (result ≡ Passed.ReadFault) (S.faults reader.old.source) (S.faults reader.new.source) }
    ensures marked { S.mark reader.new.source ≡ S.mark reader.old.source }
    ensures high { reader.new.file.byte_limit ≤ 2 ^ 40 }
{
    reader.resume();
    if ended {
        reader.pass_taken()
    } else {
        reader.pass()
    }
}

/// The same with the value of a chunk.
pub(crate) fn read_value<S: Source>(reader: &mut FileReader<S>, ended: bool) -> Next
    ensures read { IsReadSo (S.left reader.old.source) (S.left reader.new.source) ended reader.old.file reader.new.file result }
    ensures still { IsTrue ended → reader.new.source ≡ reader.old.source }
    ensures cause { Blames (result ≡ Next.ReadFault) (S.faults reader.old.source) (S.faults reader.new.source) }
    ensures marked { S.mark reader.new.source ≡ S.mark reader.old.source }
    ensures high { reader.new.file.byte_limit ≤ 2 ^ 40 }
{
    reader.resume();
    if ended {
        reader.next_taken()
    } else {
        reader.next()
    }
}

/// Tells the answer; where no whole chunk stands, goes past the damage first.
pub(crate) fn follow<S: Source>(
    reader: &mut FileReader<S>,
    ended: &mut bool,
    end: &mut Option<SalvageEnd>,
    passed: Passed,
) -> Salvaged
    requires none { end.old ≡ None }
    requires low { reader.old.file.place ≤ reader.old.file.byte_limit }
    requires within { IsTrue ended.old → reader.old.file.place + length reader.old.file.ahead ≤ reader.old.file.byte_limit }
    requires read { (before : Option (List ℕ)) × (old : FileInlet) × IsReadSo before (S.left reader.old.source) ended.old old reader.old.file (as_next old.context reader.old.file.last passed) }
    ensures found { (before : Option (List ℕ)) (old : Salvage S) → old.ended ≡ ended.old → IsReadSo before (S.left reader.old.source) ended.old old.file reader.old.file (as_next old.file.context reader.old.file.last passed)
        → IsFound before (S.left reader.new.source) old (record { source = reader.new.source; file = reader.new.file; ended = ended.new; end = end.new }) result }
    ensures chunk { (at : ℕ) → result ≡ Salvaged.Chunk at → (passed ≡ Passed.Chunk at) × (reader.new.file ≡ reader.old.file) }
    ensures closed { IsTrue ended.new → IsTrue ended.old ⊎ IsAtEnd (S.left reader.new.source) }
    ensures still { IsTrue ended.old → (reader.new.source ≡ reader.old.source) × IsTrue ended.new }
    ensures fault { passed ≡ Passed.ReadFault → result ≡ Salvaged.ReadFault }
    ensures cause { result ≡ Salvaged.ReadFault → (passed ≡ Passed.ReadFault) ⊎ Rose (S.faults reader.old.source) (S.faults reader.new.source) }
    ensures later { S.faults reader.old.source ≤ S.faults reader.new.source }
    ensures quiet { (result ≡ Salvaged.ReadFault → ⊥) → S.faults reader.new.source ≡ S.faults reader.old.source }
    ensures marked { S.mark reader.new.source ≡ S.mark reader.old.source }
    ensures limit { reader.new.file.byte_limit ≡ reader.old.file.byte_limit }
    ensures low { end.new ≡ None → reader.new.file.place ≤ reader.new.file.byte_limit }
    ensures within { end.new ≡ None → IsTrue ended.new → reader.new.file.place + length reader.new.file.ahead ≤ reader.new.file.byte_limit }
    ensures fresh { (end.new ≡ None → ⊥) → reader.new.file.last ≡ [] }
{
    match passed {
        Passed::Chunk { at } => return Salvaged::Chunk { at },
        Passed::Memory => return Salvaged::Memory,
        Passed::ReadFault => {
            *end = Some(SalvageEnd::ReadFault);
            return Salvaged::ReadFault;
        }
        Passed::SizeLimit => {
            *end = Some(SalvageEnd::SizeLimit);
            return Salvaged::SizeLimit;
        }
        Passed::End { .. } => {
            *ended = true;
            *end = Some(SalvageEnd::End);
            return Salvaged::End;
        }
        Passed::Torn { .. } => *ended = true,
        Passed::Bad { .. } => {}
    }
    let from = reader.place();
    match skip_range(reader, ended) {
        Ok(()) => Salvaged::Skipped {
            from,
            to: reader.place(),
        },
        Err(fault) => {
            *end = Some(fault);
            told_end(fault)
        }
    }
}
