//! The laws.

ghost use Rattle.std.specs.Prelude.{◌≡◌, ◌+◌, ◌<◌, ◌^◌, ◌==◌, ℕ, not, List, [], ◌++◌, length, map, filter, take, Some, slice_get};
ghost use Rattle.std.specs.List.{AllByRecursion, list_any};
ghost use Rattle.xdf_model.specs.Sample.{Sample};
ghost use Rattle.chunk_grammar.specs.declared.chunk.Chunk.{Chunk};
ghost use Rattle.chunk_grammar.specs.Chunk.{IsFileText, least_file_text};
ghost use Rattle.ring_model.specs.Ring.{RingState, IsReached};
ghost use Rattle.recording_model.specs.declared.row.Row.{Row};
ghost use Rattle.recording_model.specs.declared.stream.StreamDoc.{StreamDoc};
ghost use Rattle.recording_model.specs.Ledger.{ledger_rows};
ghost use Rattle.recording_model.specs.Batch.{Batch, Entry, IsRising};
ghost use Rattle.recording_model.specs.Recording.{IsRecording};
ghost use Rattle.loss_model.specs.Loss.{entries_at, behind_last, AreOf, entries_without, positions_below, lost_positions, accounted, IsFeedPrefix};
ghost use Rattle.loss_model.specs.Partial.{IsPartialRecording};

/// A recording holds of each feed the samples without those that its ledger names.
pub fn recording_is_of_its_feeds()
    ensures { (streams : List StreamDoc) (batches : List Batch) (cs : List Chunk) (place : ℕ) (stream : StreamDoc) (samples : List Sample)
        → IsRecording streams batches cs → slice_get streams place ≡ Some stream
        → AreOf samples (entries_at place batches) → length samples < 2 ^ 62
        → IsFeedPrefix samples cs stream.id
        × (accounted stream.id cs ≡ behind_last (entries_at place batches))
        × (entries_at place batches ≡ entries_without (ledger_rows stream.id cs) (take (accounted stream.id cs) samples)) }
{}

/// Where the first chunks of a recording have texts, what stands in a file of them that was stopped
/// anywhere holds the first samples of each feed without those that its ledger names.
pub fn a_beginning_of_a_recording_is_partial()
    ensures { (streams : List StreamDoc) (batches : List Batch) (chunks some more : List Chunk) (lists : List (List Sample)) (n : ℕ)
        → IsRecording streams batches chunks → chunks ≡ some ++ more → IsFileText some (least_file_text some)
        → ((place : ℕ) (samples : List Sample) → slice_get lists place ≡ Some samples → AreOf samples (entries_at place batches) × (length samples < 2 ^ 62))
        → IsPartialRecording streams lists (take n (least_file_text some)) }
{}

/// What a stopped recording holds, cut anywhere, is again what one holds that was stopped.
pub fn a_beginning_of_a_partial_recording_is_one()
    ensures { (streams : List StreamDoc) (lists : List (List Sample)) (b : List ℕ) (n : ℕ)
        → IsPartialRecording streams lists b → IsPartialRecording streams lists (take n b) }
{}

/// A ring that is empty again dropped just the positions that it didn't give.
pub fn a_ring_drops_what_it_does_not_give()
    ensures { (capacity : ℕ) (state : RingState Sample) (rows : List Row) (samples : List Sample)
        → IsReached capacity state → state.puts ≡ samples → state.queue ≡ []
        → map (λ e. record { position = e.position; sample = e.value }) state.taken ≡ entries_without rows samples
        → map (λ e. e.position) state.dropped ≡ lost_positions rows (length samples) }
{}

/// Each entry that a ring gave, dropped or holds has the value that was put at its position, and
/// together they are as many as were put.
pub fn a_ring_loses_only_what_it_drops()
    ensures { (capacity : ℕ) (state : RingState Sample) → IsReached capacity state
        → AllByRecursion (λ e. slice_get state.puts e.position ≡ Some e.value) state.taken
        × AllByRecursion (λ e. slice_get state.puts e.position ≡ Some e.value) state.dropped
        × AllByRecursion (λ e. slice_get state.puts e.position ≡ Some e.value) state.queue
        × ((length state.taken + length state.dropped) + length state.queue ≡ length state.puts) }
{}

/// A ring gives in the order of what was put, nothing twice; what it dropped and what it holds are,
/// one behind the other, all other positions that were put.
pub fn a_ring_gives_in_order()
    ensures { (capacity : ℕ) (state : RingState Sample) → IsReached capacity state
        → IsRising (map (λ e. e.position) state.taken)
        × (map (λ e. e.position) (state.dropped ++ state.queue)
        ≡ filter (λ n. not (list_any (λ e. n == e.position) state.taken)) (positions_below (length state.puts))) }
{}
