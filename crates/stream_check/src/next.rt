//! What a reader gives.

ghost use Rattle.std.specs.Prelude.{◌≡◌, ◌≤◌, false};
ghost use Rattle.rec_base.specs.Causes.{Blames};
ghost use Rattle.reading_model.specs.Outlook.{Answered};
ghost use Rattle.file_model.specs.Reader.{file_kind};
ghost use Rattle.file_model.specs.declared.end.FileEnd.TheVariants as ends;
ghost use Rattle.file_reader.specs.FileInlet.{outlook};
ghost use Rattle.stream_check.specs.Steps.{IsGivenStep, got_step};
ghost use Rattle.stream_check.specs.declared.next.Step.TheVariants as steps;

use chunk_grammar::Chunk;
use file_reader::{FileEnd, FileReader, Next};
use rec_base::Source;

/// A chunk with its place, the end of the reading, or nothing for want of memory.
#[derive(Debug, Drop)]
pub(crate) enum Step {
    Chunk { at: u64, chunk: Chunk },
    End(FileEnd),
    Memory,
}

/// The next answer of a reader, with the ends apart from the chunks.
pub(crate) fn read_next<S: Source>(reader: &mut FileReader<S>) -> Step
    ensures answer { Answered file_kind (outlook reader.old.file) (outlook reader.new.file) (S.left reader.old.source) (S.left reader.new.source) (got_step result) }
    ensures chunk { IsGivenStep reader.old.file reader.new.file result }
    ensures limit { reader.new.file.byte_limit ≡ reader.old.file.byte_limit }
    ensures cause { Blames (((outlook reader.old.file).is_over ≡ false) × (result ≡ steps.End ends.ReadFault)) (S.faults reader.old.source) (S.faults reader.new.source) }
    ensures marked { S.mark reader.new.source ≡ S.mark reader.old.source }
{
    match reader.next() {
        Next::Chunk { at, chunk } => Step::Chunk { at, chunk },
        Next::End { at } => Step::End(FileEnd::End { at }),
        Next::Torn { at, left } => Step::End(FileEnd::Torn { at, left }),
        Next::Bad { at, why } => Step::End(FileEnd::Bad { at, why }),
        Next::ReadFault => Step::End(FileEnd::ReadFault),
        Next::SizeLimit => Step::End(FileEnd::SizeLimit),
        Next::Memory => Step::Memory,
    }
}
