//! The sources of the feeds.

ghost use Rattle.std.specs.Prelude.{◌≡◌, ◌≤◌, ◌⊎◌, length, IfOk, IsErr, IsErrOf, OnOk};
ghost use Rattle.dock_calls.specs.Asking.{FailsAt, openings};
ghost use Rattle.rec_base.specs.Asked.{AsksAll, AsksFront};
ghost use Rattle.std.specs.List.{zip};
ghost use Rattle.record_call.specs.Feeds.{IsSourceOpened, AreSourcesOpened, input_from, uid_from, feed_name, names_of};

use crate::fault::RecordFault;
use feed_reply::request_text;
use plan_words::{FeedFrom, FeedLine, FeedLines};
use rec_base::{Blob, Dock, Failed, Lines, Memory, Name, Sink, Source, Word};
use record_run::{FeedSource, StreamDoc};
use std::alloc::Global;
use xdf_model::Shape;

fn copy(alloc: Global, word: &Word) -> Result<Word, Memory>
    ensures { IfOk result (λ copy. copy ≡ word.now) }
{
    Word::from_bytes(alloc, word.bytes())
}

// The name under which a feed of samples of this shape is opened. An outlet's has the request.
fn input_from(alloc: Global, from: &FeedFrom, shape: &Shape) -> Result<Name, Memory>
    ensures { IfOk result (λ name. name ≡ input_from from.now shape.now) }
{
    match from {
        FeedFrom::File(path) => Ok(Name::File(copy(alloc, path)?)),
        FeedFrom::Tcp { host, port, uid } => {
            let mut request = Vec::new(alloc);
            request_text(uid.bytes(), shape, &mut request)?;
            Ok(Name::Peer {
                host: copy(alloc, host)?,
                port: *port,
                request: Blob::from_vec(request),
            })
        }
    }
}

// The uid that the reply must have.
fn uid_from(alloc: Global, from: &FeedFrom) -> Result<Option<Word>, Memory>
    ensures { IfOk result (λ uid. uid ≡ uid_from from.now) }
{
    match from {
        FeedFrom::File(_) => Ok(None),
        FeedFrom::Tcp { uid, .. } => Ok(Some(copy(alloc, uid)?)),
    }
}

// Opens a feed. Once it is open, a read that fails is its end.
fn open_feed<D: Dock>(
    alloc: Global,
    dock: &mut D,
    feed: &FeedLine,
    stream: &StreamDoc,
) -> Result<FeedSource<D::Source>, RecordFault>
    ensures opened { IfOk result (λ source. IsSourceOpened D.Source.left (D.contents dock.old) (D.contents dock.new) (feed.now, stream.now) source) }
    ensures failed { IsErrOf result RecordFault.Open → FailsAt (D.asked dock.old) (D.asked dock.new) (openings (feed_name (feed.now, stream.now))) (D.open_faults dock.old) (D.open_faults dock.new) }
    ensures none_else { IsErr result → IsErrOf result RecordFault.Open ⊎ IsErrOf result RecordFault.Memory }
    ensures asks { AsksFront (D.asked dock.old) (D.asked dock.new) (openings (feed_name (feed.now, stream.now))) }
    ensures asks_all { OnOk result (AsksAll (D.asked dock.old) (D.asked dock.new) (openings (feed_name (feed.now, stream.now)))) }
    ensures quiet { (IsErrOf result RecordFault.Open → ⊥) → D.open_faults dock.new ≡ D.open_faults dock.old }
    ensures write_faults { D.write_faults dock.new ≡ D.write_faults dock.old }
    ensures target { D.target dock.new ≡ D.target dock.old }
    ensures held { D.held dock.new ≡ D.held dock.old }
    ensures printed { D.printed dock.new ≡ D.printed dock.old }
    ensures print_faults { D.print_faults dock.new ≡ D.print_faults dock.old }
{
    let name = input_from(alloc, &feed.from, &stream.shape)?;
    let uid = uid_from(alloc, &feed.from)?;
    match dock.open(&name) {
        Ok(source) => Ok(FeedSource {
            source,
            uid,
            limit: feed.limit,
        }),
        Err(Failed) => Err(RecordFault::Open),
    }
}

/// Opens the feeds in order, each as it becomes the stream at its place.
pub(crate) fn open_feeds<D: Dock>(
    alloc: Global,
    dock: &mut D,
    feeds: &FeedLines,
    streams: &[StreamDoc],
) -> Result<Vec<FeedSource<D::Source>>, RecordFault>
    requires streams { length streams.now ≡ length feeds.now }
    ensures opened { IfOk result (λ sources. AreSourcesOpened D.Source.left (D.contents dock.old) (D.contents dock.new) (zip feeds.now streams.now) sources.items) }
    ensures failed { IsErrOf result RecordFault.Open → FailsAt (D.asked dock.old) (D.asked dock.new) (openings (names_of feed_name (zip feeds.now streams.now))) (D.open_faults dock.old) (D.open_faults dock.new) }
    ensures none_else { IsErr result → IsErrOf result RecordFault.Open ⊎ IsErrOf result RecordFault.Memory }
    ensures asks { AsksFront (D.asked dock.old) (D.asked dock.new) (openings (names_of feed_name (zip feeds.now streams.now))) }
    ensures asks_all { OnOk result (AsksAll (D.asked dock.old) (D.asked dock.new) (openings (names_of feed_name (zip feeds.now streams.now)))) }
    ensures quiet { (IsErrOf result RecordFault.Open → ⊥) → D.open_faults dock.new ≡ D.open_faults dock.old }
    ensures write_faults { D.write_faults dock.new ≡ D.write_faults dock.old }
    ensures target { D.target dock.new ≡ D.target dock.old }
    ensures held { D.held dock.new ≡ D.held dock.old }
    ensures printed { D.printed dock.new ≡ D.printed dock.old }
    ensures print_faults { D.print_faults dock.new ≡ D.print_faults dock.old }
{
    let mut sources = Vec::new(alloc);
    for i in 0..feeds.len() {
        let Some(feed) = feeds.get(i) else {
            return Err(RecordFault::Memory);
        };
        let source = open_feed(alloc, dock, feed, &streams[i])?;
        match sources.push(source) {
            Ok(()) => {}
            Err(_) => return Err(RecordFault::Memory),
        }
    }
    Ok(sources)
}
