ghost use Rattle.std.specs.Prelude.{◌≡◌, ◌≤◌, IfOk, length};
ghost use Rattle.recording_model.specs.Recording.{IsStream};

use crate::*;
use plan_model::Mode;
use rec_base::{Blob, MemSink, MemSource, Piece};
use shape_pattern::find_shape;
use std::alloc::Global;
use std::test::Fail;
use xdf_model::{Format, Shape};

const NUMBERS: &[u8] =
    b"<info><channel_count>1</channel_count><channel_format>int16</channel_format></info>";

const TEXTS: &[u8] =
    b"<info><channel_count>1</channel_count><channel_format>string</channel_format></info>";

const REPLY: &[u8] = b"LSL/110 200 OK\r\nByte-Order: 1234\r\nData-Protocol-Version: 110\r\n\r\n";

// Two test samples, and then the numbers 1, 2 and 3.
const THREE_NUMBERS: &[u8] =
    b"\x02\0\0\0\0\0\0\0\0\0\0\x02\0\0\0\0\0\0\0\0\0\0\x01\x01\0\x01\x02\0\x01\x03\0";

// Two test samples, and then the texts `one` and `two`.
const TWO_TEXTS: &[u8] = b"\x01\x01\x01a\x01\x01\x01b\x01\x01\x03one\x01\x01\x03two";

#[test]
fn a_ring_costs_its_samples_and_two_more(rt: HostRuntime) -> Result<(), Fail> {
    let shape = Shape {
        count: 4096,
        format: Format::Double64,
    };
    assert_eq!(rt; ring_cost(1_048_576, &[shape]), 34_369_241_106);
    assert_eq!(rt; ring_cost(1, &[]), 0);
    Ok(())
}

// A stream with this document.
fn stream(alloc: Global, id: u32, doc: &[u8]) -> Result<StreamDoc, Fail>
    requires low { 1 ≤ id }
    requires high { id ≤ 65_535 }
    requires short { length doc.now ≤ 1_048_576 }
    ensures stream { IfOk result IsStream }
    ensures id { IfOk result (λ s. s.id ≡ id) }
    ensures doc { IfOk result (λ s. length s.doc ≤ 1_048_576) }
{
    match find_shape(doc) {
        Ok(shape) => Ok(StreamDoc {
            id,
            doc: Blob::from_bytes(alloc, doc)?,
            shape,
        }),
        Err(_) => Err("no shape".into()),
    }
}

// A feed that gives its bytes in two pieces.
fn feed(alloc: Global, samples: &[u8]) -> Result<FeedSource<MemSource>, Fail> {
    let mut pieces = Vec::new(alloc);
    pieces.push(Piece::Give(Blob::from_bytes(alloc, REPLY)?))?;
    pieces.push(Piece::Give(Blob::from_bytes(alloc, samples)?))?;
    Ok(FeedSource {
        source: MemSource::new(pieces),
        uid: None,
        limit: None,
    })
}

// A ring of eight numbers has ten blocks, and one of texts none.
#[test]
fn numbers_and_texts_are_recorded_by_threads(rt: HostRuntime) -> Result<(), Fail> {
    let alloc: Global = rt.alloc();
    let streams = vec![in alloc; stream(alloc, 7, NUMBERS)?, stream(alloc, 9, TEXTS)?]?;
    let feeds = vec![in alloc; feed(alloc, THREE_NUMBERS)?, feed(alloc, TWO_TEXTS)?]?;
    let recorder = Recorder::open(alloc, Mode::Threads, 8, 512, streams, feeds)?;
    let mut sink = MemSink::new(alloc);
    let (outcome, home) = recorder.run_threads_home(&rt, &mut sink);
    let Outcome::Done { reports, .. } = outcome else {
        return Err("not done".into());
    };
    let all = format!(in alloc; "{home} {:?} {:?}", reports.get(0), reports.get(1))?;
    assert_eq!(rt;
        all.as_str(),
        "10 Some(FeedReport { id: 7, received: 3, kept: 3, lost: 0, end: Whole }) Some(FeedReport { id: 9, received: 2, kept: 2, lost: 0, end: Whole })"
    );
    Ok(())
}
