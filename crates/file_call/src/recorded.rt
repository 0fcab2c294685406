//! The recording of a drill.

ghost use Rattle.std.specs.Prelude.{◌≡◌, ◌≤◌, ◌+◌, ◌^◌, ℕ, [], List, length, map, None as NoneValue, IfOk, Ok};
ghost use Rattle.chunk_grammar.specs.Chunk.{IsFileText, least_file_text};
ghost use Rattle.chunk_grammar.specs.declared.chunk.Chunk.{Chunk as ChunkValue};
ghost use Rattle.drill_feeds.specs.Drill.{drill_bytes, drill_document, drill_samples, drill_shape};
ghost use Rattle.inlet_model.specs.Inlet.{feed_within};
ghost use Rattle.inlet_model.specs.declared.end.FeedEnd.TheVariants.{Whole};
ghost use Rattle.recording_model.specs.Recording.{AreStreams, IsRecording};
ghost use Rattle.stream_check.specs.Ends.{told_count};
ghost use Rattle.xdf_model.specs.Shape.{shape_in};
ghost use Rattle.turns_model.specs.Turns.{turn_batches};
ghost use Rattle.file_call.specs.Drilled.{all_kept, all_lost, drill_batch, drill_ids, drill_ring, drill_source, drill_sources, drill_stream, drill_streams, kept_at, lost_at};

use drill_feeds::{drill_doc, drill_feed};
use drill_laws::drill_feed_is_its_samples;
use plan_model::Mode;
use rec_base::{Blob, MemSink, Memory, NeverFails};
use record_run::{FeedSource, Outcome, Recorder, ReportList, StreamDoc};
use std::alloc::Global;
use xdf_model::{Format, Shape};

const RING: u64 = 64;

const BATCH: u64 = 100;

/// What became of the feeds: the chunks of the file, and the samples that are kept and lost of all of
/// them.
#[derive(Clone, Copy, Debug, PartialEq, Eq)]
pub(crate) struct Recorded {
    pub(crate) chunks: u64,
    pub(crate) kept: u64,
    pub(crate) lost: u64,
}

fn shape_of(id: u32) -> Shape
    ensures { result ≡ drill_shape id }
{
    match id {
        1 => Shape {
            count: 2,
            format: Format::Int16,
        },
        2 => Shape {
            count: 1,
            format: Format::Double64,
        },
        _ => Shape {
            count: 1,
            format: Format::Text,
        },
    }
}

fn stream_of(alloc: Global, id: u32) -> Result<StreamDoc, Memory>
    requires low { 1 ≤ id }
    requires high { id ≤ 3 }
    ensures stream { IfOk result (λ s. s ≡ drill_stream id) }
    ensures shape { IfOk result (λ _. shape_in (drill_document id) ≡ Ok (drill_shape id)) }
{
    let doc = Blob::from_bytes(alloc, drill_doc(id).as_bytes())?;
    Ok(StreamDoc {
        id,
        doc,
        shape: shape_of(id),
    })
}

fn all_streams(alloc: Global) -> Result<Vec<StreamDoc>, Memory>
    ensures streams { IfOk result (λ streams. streams.items ≡ drill_streams) }
    ensures are { IfOk result (λ streams. AreStreams streams.items) }
{
    let first = stream_of(alloc, 1)?;
    let second = stream_of(alloc, 2)?;
    let third = stream_of(alloc, 3)?;
    Ok(vec![in alloc; first, second, third]?)
}

// What an inlet of such a feed gets.
fn samples_are_given(feed: &[u8], number: u64, id: u32)
    requires bytes { feed.now ≡ drill_bytes number id }
    requires most { number ≤ 1_000_000 }
    requires low { 1 ≤ id }
    requires high { id ≤ 3 }
    ensures { feed_within NoneValue (drill_shape id) NoneValue (2 ^ 40) (drill_bytes number id) ≡ (drill_samples number id, Whole) }
{
    drill_feed_is_its_samples();
}

fn feed_of(alloc: Global, number: u64, id: u32) -> Result<FeedSource<NeverFails>, Memory>
    requires some { 1 ≤ number }
    requires most { number ≤ 1_000_000 }
    requires low { 1 ≤ id }
    requires high { id ≤ 3 }
    ensures feed { IfOk result (λ f. f ≡ drill_source number id) }
    ensures samples { IfOk result (λ _. feed_within NoneValue (drill_shape id) NoneValue (2 ^ 40) (drill_bytes number id) ≡ (drill_samples number id, Whole)) }
{
    let feed = drill_feed(alloc, number, id)?;
    samples_are_given(feed.bytes(), number, id);
    Ok(FeedSource {
        source: NeverFails::new(feed),
        uid: None,
        limit: None,
    })
}

fn all_feeds(alloc: Global, number: u64) -> Result<Vec<FeedSource<NeverFails>>, Memory>
    requires some { 1 ≤ number }
    requires most { number ≤ 1_000_000 }
    ensures feeds { IfOk result (λ feeds. feeds.items ≡ drill_sources number) }
    ensures samples { IfOk result (λ _. (id : ℕ) → 1 ≤ id → id ≤ 3 → feed_within NoneValue (drill_shape id) NoneValue (2 ^ 40) (drill_bytes number id) ≡ (drill_samples number id, Whole)) }
{
    let first = feed_of(alloc, number, 1)?;
    let second = feed_of(alloc, number, 2)?;
    let third = feed_of(alloc, number, 3)?;
    Ok(vec![in alloc; first, second, third]?)
}

// The report at a place; nothing is kept or lost where there is none.
fn report_at(reports: &ReportList, place: usize) -> (u64, u64)
    ensures kept { result.0 ≡ kept_at reports.now place }
    ensures lost { result.1 ≡ lost_at reports.now place }
{
    match reports.get(place) {
        Some(report) => (report.kept, report.lost),
        None => (0, 0),
    }
}

// The samples that are kept and lost of all three feeds.
fn totals(reports: &ReportList) -> (u64, u64)
    ensures kept { result.0 ≡ told_count (kept_at reports.now 0 + kept_at reports.now 1 + kept_at reports.now 2) }
    ensures lost { result.1 ≡ told_count (lost_at reports.now 0 + lost_at reports.now 1 + lost_at reports.now 2) }
{
    let (first_kept, first_lost) = report_at(reports, 0);
    let (second_kept, second_lost) = report_at(reports, 1);
    let (third_kept, third_lost) = report_at(reports, 2);
    (
        first_kept
            .saturating_add(second_kept)
            .saturating_add(third_kept),
        first_lost
            .saturating_add(second_lost)
            .saturating_add(third_lost),
    )
}

/// Records the three feeds of the drill of this number by turns, into a sink that nothing was written
/// to.
pub(crate) fn record_drill(
    alloc: Global,
    number: u64,
    sink: &mut MemSink,
) -> Result<Recorded, Memory>
    requires some { 1 ≤ number }
    requires most { number ≤ 1_000_000 }
    requires empty { sink.old.held ≡ [] }
    ensures { IfOk result (λ r. (cs : List ChunkValue)
        × IsRecording drill_streams (turn_batches drill_ring drill_batch (map (drill_samples number) drill_ids)) cs
        × IsFileText cs (least_file_text cs) × (sink.new.held ≡ least_file_text cs) × (r.chunks ≡ told_count (length cs))
        × (r.kept ≡ told_count (all_kept cs)) × (r.lost ≡ told_count (all_lost cs))) }
{
    let streams = all_streams(alloc)?;
    let feeds = all_feeds(alloc, number)?;
    let recorder = Recorder::open(alloc, Mode::Turns, RING, BATCH, streams, feeds)?;
    match recorder.run_turns(sink) {
        Outcome::Done {
            reports,
            chunks,
            ..
        } => {
            let (kept, lost) = totals(&reports);
            Ok(Recorded { chunks, kept, lost })
        }
        Outcome::WriteFault | Outcome::Memory => Err(Memory),
    }
}
