//! The header documents of the feeds.

ghost use Rattle.std.specs.Prelude.{◌≡◌, ◌≤◌, ◌⊎◌, List, ℕ, IfOk, IsErr, IsErrOf, OnOk};
ghost use Rattle.dock_calls.specs.Asking.{FailsAt, HasReadFault, openings};
ghost use Rattle.rec_base.specs.Asked.{AsksAll, AsksFront};
ghost use Rattle.rec_base.specs.Contents.{IsInput};
ghost use Rattle.rec_base.specs.declared.name.Name.{Name as NameValue};
ghost use Rattle.record_call.specs.Feeds.{IsStreamRead, IsNoDocument, AreStreamsRead, HasNoStreamHere, HasFailedHere, document_name, names_of, AreMarksLeft};

use crate::fault::RecordFault;
use dock_calls::{InputFault, read_input};
use plan_words::{FeedLine, FeedLines};
use rec_base::{Dock, Lines, Sink, Source};
use record_run::StreamDoc;
use shape_pattern::find_shape;
use std::alloc::Global;

// The most bytes of a header document.
const DOCUMENT_LIMIT: u64 = 1_048_576;

// Opens and reads the header document of a feed, and finds its shape.
fn open_stream<D: Dock>(
    alloc: Global,
    dock: &mut D,
    feed: &FeedLine,
) -> Result<StreamDoc, RecordFault>
    ensures read { IfOk result (λ stream. IsStreamRead (D.contents dock.old) (D.contents dock.new) feed.now stream) }
    ensures none { (id : ℕ) → IsErrOf result (RecordFault.Document id) → (id ≡ feed.now.id)
        × (text : List ℕ) × IsInput (D.contents dock.old) (NameValue.File feed.now.doc) 0 text × IsNoDocument text }
    ensures failed { IsErrOf result RecordFault.Open → FailsAt (D.asked dock.old) (D.asked dock.new) (openings (document_name feed.now)) (D.open_faults dock.old) (D.open_faults dock.new)
        ⊎ HasReadFault D.Source.left D.Source.faults D.Source.mark D.input_mark (D.contents dock.old) (D.marks dock.old) (NameValue.File feed.now.doc) 0 }
    ensures none_else { IsErr result → IsErrOf result RecordFault.Open ⊎ IsErrOf result RecordFault.Memory ⊎ ((id : ℕ) × IsErrOf result (RecordFault.Document id)) }
    ensures marks { OnOk result (AreMarksLeft (D.marks dock.old) (D.marks dock.new) (document_name feed.now)) }
    ensures asks { AsksFront (D.asked dock.old) (D.asked dock.new) (openings (document_name feed.now)) }
    ensures asks_all { OnOk result (AsksAll (D.asked dock.old) (D.asked dock.new) (openings (document_name feed.now))) }
    ensures quiet { (IsErrOf result RecordFault.Open → ⊥) → D.open_faults dock.new ≡ D.open_faults dock.old }
    ensures write_faults { D.write_faults dock.new ≡ D.write_faults dock.old }
    ensures target { D.target dock.new ≡ D.target dock.old }
    ensures held { D.held dock.new ≡ D.held dock.old }
    ensures printed { D.printed dock.new ≡ D.printed dock.old }
    ensures print_faults { D.print_faults dock.new ≡ D.print_faults dock.old }
{
    let doc = match read_input(alloc, dock, &feed.doc, DOCUMENT_LIMIT) {
        Ok(doc) => doc,
        Err(InputFault::TooLong) => return Err(RecordFault::Document(feed.id)),
        Err(InputFault::Open) => return Err(RecordFault::Open),
        Err(InputFault::Memory) => return Err(RecordFault::Memory),
    };
    match find_shape(doc.bytes()) {
        Ok(shape) => Ok(StreamDoc {
            id: feed.id,
            doc,
            shape,
        }),
        Err(_) => Err(RecordFault::Document(feed.id)),
    }
}

/// Opens and reads the header documents of the feeds in order, up to the first that is none.
pub(crate) fn open_streams<D: Dock>(
    alloc: Global,
    dock: &mut D,
    feeds: &FeedLines,
) -> Result<Vec<StreamDoc>, RecordFault>
    ensures read { IfOk result (λ streams. AreStreamsRead (D.contents dock.old) (D.contents dock.new) feeds.now streams.items) }
    ensures none { (id : ℕ) → IsErrOf result (RecordFault.Document id) → HasNoStreamHere (D.contents dock.old) feeds.now id }
    ensures failed { IsErrOf result RecordFault.Open → FailsAt (D.asked dock.old) (D.asked dock.new) (openings (names_of document_name feeds.now)) (D.open_faults dock.old) (D.open_faults dock.new)
        ⊎ HasFailedHere D.Source.left D.Source.faults D.Source.mark D.input_mark (D.contents dock.old) (D.marks dock.old) feeds.now }
    ensures none_else { IsErr result → IsErrOf result RecordFault.Open ⊎ IsErrOf result RecordFault.Memory ⊎ ((id : ℕ) × IsErrOf result (RecordFault.Document id)) }
    ensures marks { OnOk result (AreMarksLeft (D.marks dock.old) (D.marks dock.new) (names_of document_name feeds.now)) }
    ensures asks { AsksFront (D.asked dock.old) (D.asked dock.new) (openings (names_of document_name feeds.now)) }
    ensures asks_all { OnOk result (AsksAll (D.asked dock.old) (D.asked dock.new) (openings (names_of document_name feeds.now))) }
    ensures quiet { (IsErrOf result RecordFault.Open → ⊥) → D.open_faults dock.new ≡ D.open_faults dock.old }
    ensures write_faults { D.write_faults dock.new ≡ D.write_faults dock.old }
    ensures target { D.target dock.new ≡ D.target dock.old }
    ensures held { D.held dock.new ≡ D.held dock.old }
    ensures printed { D.printed dock.new ≡ D.printed dock.old }
    ensures print_faults { D.print_faults dock.new ≡ D.print_faults dock.old }
{
    let mut streams = Vec::new(alloc);
    for i in 0..feeds.len() {
        let Some(feed) = feeds.get(i) else {
            return Err(RecordFault::Memory);
        };
        let stream = open_stream(alloc, dock, feed)?;
        match streams.push(stream) {
            Ok(()) => {}
            Err(_) => return Err(RecordFault::Memory),
        }
    }
    Ok(streams)
}
