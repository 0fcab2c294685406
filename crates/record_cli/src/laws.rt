//! The law that joins `record` and `repair`. It speaks of the answers alone, which are the contracts of
//! `record_main` and `file_main` on two docks.

ghost use Rattle.std.specs.Prelude.{ℕ, IsTrue, List};
ghost use Rattle.chunk_grammar.specs.declared.chunk.Chunk.{Chunk};
ghost use Rattle.run_model.specs.Run.{Fed};
ghost use Rattle.record_call.specs.Recorded.{IsFileOf};
ghost use Rattle.record_cli.specs.RecordAnswer.{IsRecordAnswer};
ghost use Rattle.record_cli.specs.Repairs.{RepairsCuts};
ghost use Rattle.record_cli.specs.Shown.{Shown};
ghost use Rattle.record_cli.specs.Statuses.{is_written};

use rec_base::Dock;

/// A recording that is written is the file of its chunks, and wherever this file is cut behind its
/// magic, the plain repair of what is left keeps the chunks that lie whole in it.
pub(crate) fn cut_recording_is_repaired<D: Dock, E: Dock>()
    ensures { (words : List (List ℕ)) (before after : Shown D.InputMark) (status : ℕ)
        → IsRecordAnswer D.Source.left D.Source.faults D.Source.mark D.input_mark words before after status
        → IsTrue (is_written status)
        → (fed : List (Fed D.Source)) × (chunks : List Chunk)
        × IsFileOf D.Source.left D.Source.faults D.Source.mark before.contents words before.target after.target before.held after.held fed chunks
        × RepairsCuts E.Source.left E.Source.faults E.Source.mark E.input_mark chunks }
{}
