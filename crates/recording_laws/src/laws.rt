//! The laws.

ghost use Rattle.std.specs.Prelude.{◌≡◌, List};
ghost use Rattle.chunk_grammar.specs.declared.chunk.Chunk.{Chunk};
ghost use Rattle.recording_model.specs.declared.stream.StreamDoc.{StreamDoc};
ghost use Rattle.recording_model.specs.Batch.{Batch, Group, AreDivided};
ghost use Rattle.recording_model.specs.Recording.{IsRecording};

/// Batches are divided into groups in only one way.
pub fn division_is_determined()
    ensures { (streams : List StreamDoc) (batches : List Batch) (gs hs : List Group)
        → AreDivided streams batches gs → AreDivided streams batches hs → gs ≡ hs }
{}

/// Streams and batches have at most one recording: how batches are divided into groups is
/// determined by them.
pub fn recording_is_determined()
    ensures { (streams : List StreamDoc) (batches : List Batch) (cs ds : List Chunk)
        → IsRecording streams batches cs → IsRecording streams batches ds → cs ≡ ds }
{}
