ghost use Rattle.std.specs.Prelude.{◌≡◌, ◌≤◌, IfOk, length};
ghost use Rattle.std.specs.List.{AllByRecursion};
ghost use Rattle.recording_model.specs.Recording.{IsStream, AreStreams};

use super::*;
use feed_lane::{join_lane, make_lane};
use feed_samples::FeedReader;
use halt_word::make_halt;
use rec_base::{Blob, Failed, Sink, Source};
use record_writer::WriterRoom;
use recording_model::StreamDoc;
use run_model::{FeedEnd, FeedReport, FeedSource, Outcome};
use shape_pattern::find_shape;
use std::alloc::Global;
use std::rt::Clock;
use std::sync::Wait;
use std::sync::atomic::{AtomicU64, Ordering};
use std::test::Fail;
use std::thread::Threads;

// The header document of one channel of `int16`.
const INT16: &[u8] =
    b"<info><channel_count>1</channel_count><channel_format>int16</channel_format></info>";

// The reply and both test samples, and then eight samples: the numbers from 1 on.
const EIGHT: &[u8] =
    b"LSL/110 200 OK\r\nUID: u1\r\nByte-Order: 1234\r\nSuppress-Subnormals: 0\r\nData-Protocol-Version: 110\r\n\r\n\x02\0\0\0\0\0\0\0\0\0\0\x02\0\0\0\0\0\0\0\0\0\0\x01\x01\0\x01\x02\0\x01\x03\0\x01\x04\0\x01\x05\0\x01\x06\0\x01\x07\0\x01\x08\0";

// The same with one sample alone.
const ONE: &[u8] =
    b"LSL/110 200 OK\r\nUID: u1\r\nByte-Order: 1234\r\nSuppress-Subnormals: 0\r\nData-Protocol-Version: 110\r\n\r\n\x02\0\0\0\0\0\0\0\0\0\0\x02\0\0\0\0\0\0\0\0\0\0\x01\x01\0";

// The same with three samples.
const THREE: &[u8] =
    b"LSL/110 200 OK\r\nUID: u1\r\nByte-Order: 1234\r\nSuppress-Subnormals: 0\r\nData-Protocol-Version: 110\r\n\r\n\x02\0\0\0\0\0\0\0\0\0\0\x02\0\0\0\0\0\0\0\0\0\0\x01\x01\0\x01\x02\0\x01\x03\0";

// The reply and both test samples alone.
const NO_NUMBERS: &[u8] =
    b"LSL/110 200 OK\r\nByte-Order: 1234\r\nData-Protocol-Version: 110\r\n\r\n\x02\0\0\0\0\0\0\0\0\0\0\x02\0\0\0\0\0\0\0\0\0\0";

// The header document of one channel of `string`.
const STRING: &[u8] =
    b"<info><channel_count>1</channel_count><channel_format>string</channel_format></info>";

// A reply and both test samples of texts.
const NO_TEXTS: &[u8] =
    b"LSL/110 200 OK\r\nByte-Order: 1234\r\nData-Protocol-Version: 110\r\n\r\n\x01\x01\x01a\x01\x01\x01b";

// One sample more.
const ANOTHER: &[u8] = b"\x01\x02\0";

// The headers of a recording of one stream of `int16` end here, and those of one of `string`.
const HEADERS: u64 = 339;

const STRING_HEADERS: usize = 340;

// Whether a flag is raised within a bounded time.
fn is_raised(flag: &AtomicU64) -> bool {
    for _ in 0..1_073_741_824u64 {
        if flag.load(Ordering::SeqCst) == 1 {
            return true;
        }
    }
    false
}

// A source of two pieces, given a byte at a time. The first read behind the first piece raises a flag, and
// waits inside the call for another one, or fails.
#[derive(Drop)]
struct Waiting<'a> {
    before: &'static [u8],
    behind: &'static [u8],
    own: &'a AtomicU64,
    other: &'a AtomicU64,
    waits: bool,
    faults: u64,
}

impl Source for Waiting<'_> {
    ghost use Rattle.std.specs.Prelude.{None};

    ghost left = { λ _. None };

    ghost faults = { λ s. s.faults };

    ghost mark = { λ _. tt };

    fn read(&mut self, buf: &mut [u8]) -> Result<usize, Failed> {
        let [place, ..] = buf else {
            return Ok(0);
        };
        if let [first, rest @ ..] = self.before {
            *place = *first;
            self.before = rest;
            return Ok(1);
        }
        if self.waits {
            self.own.store(1, Ordering::SeqCst);
            if !is_raised(self.other) {
                self.faults = self.faults.saturating_add(1);
                return Err(Failed);
            }
            self.waits = false;
        }
        let [first, rest @ ..] = self.behind else {
            return Ok(0);
        };
        *place = *first;
        self.behind = rest;
        Ok(1)
    }
}

// A feed of two pieces, which raises its own flag between them and waits for another one.
fn feed_in_two<'a>(
    before: &'static [u8],
    behind: &'static [u8],
    own: &'a AtomicU64,
    other: &'a AtomicU64,
) -> FeedSource<Waiting<'a>> {
    let source = Waiting {
        before,
        behind,
        own,
        other,
        waits: true,
        faults: 0,
    };
    FeedSource {
        source,
        uid: None,
        limit: None,
    }
}

// A sink that counts bytes, and raises a flag once it holds more than the headers.
#[derive(Drop)]
struct Counting<'a> {
    held: u64,
    flag: &'a AtomicU64,
}

impl Sink for Counting<'_> {
    ghost use Rattle.std.specs.Prelude.{None};

    ghost held = { λ _. None };

    ghost write_faults = { λ _. 0 };

    ghost rest = { λ _. tt };

    fn write(&mut self, bytes: &[u8]) -> Result<usize, Failed> {
        self.held = self.held.saturating_add(bytes.len() as u64);
        if self.held > HEADERS {
            self.flag.store(1, Ordering::SeqCst);
        }
        Ok(bytes.len())
    }
}

// A source that gives some bytes and then one sample over and over, as many as there is room for at each
// read. It raises a flag once all of them are given.
#[derive(Drop)]
struct Repeating<'a> {
    // what is left of what it gives now
    piece: &'static [u8],
    sample: &'static [u8],
    more: u64,
    flag: &'a AtomicU64,
}

impl Repeating<'_> {
    fn next(&mut self) -> Option<u8> {
        if let [first, rest @ ..] = self.piece {
            self.piece = rest;
            return Some(*first);
        }
        if self.more == 0 {
            self.flag.store(1, Ordering::SeqCst);
            return None;
        }
        self.more -= 1;
        let [first, rest @ ..] = self.sample else {
            return None;
        };
        self.piece = rest;
        Some(*first)
    }
}

impl Source for Repeating<'_> {
    ghost use Rattle.std.specs.Prelude.{None};

    ghost left = { λ _. None };

    ghost faults = { λ _. 0 };

    ghost mark = { λ _. tt };

    fn read(&mut self, buf: &mut [u8]) -> Result<usize, Failed> {
        for count in 0..buf.len() {
            let Some(byte) = self.next() else {
                return Ok(count);
            };
            buf[count] = byte;
        }
        Ok(buf.len())
    }
}

// A feed of 16,777,216 samples.
fn long_feed<'a>(
    front: &'static [u8],
    sample: &'static [u8],
    flag: &'a AtomicU64,
) -> FeedSource<Repeating<'a>> {
    let source = Repeating {
        piece: front,
        sample,
        more: 16_777_216,
        flag,
    };
    FeedSource {
        source,
        uid: None,
        limit: None,
    }
}

// A sink that takes so many bytes, and whose writes fail then.
#[derive(Drop)]
struct Failing {
    room: usize,
    faults: u64,
}

impl Sink for Failing {
    ghost use Rattle.std.specs.Prelude.{None};

    ghost held = { λ _. None };

    ghost write_faults = { λ s. s.faults };

    ghost rest = { λ _. tt };

    fn write(&mut self, bytes: &[u8]) -> Result<usize, Failed> {
        if self.room == 0 {
            self.faults = self.faults.saturating_add(1);
            return Err(Failed);
        }
        let count = bytes.len().min(self.room);
        self.room -= count;
        Ok(count)
    }
}

// A stream with this document.
fn stream(alloc: Global, id: u32, doc: &[u8]) -> Result<StreamDoc, Fail>
    requires low { 1 ≤ id }
    requires high { id ≤ 65_535 }
    requires short { length doc.now ≤ 1_048_576 }
    ensures stream { IfOk result IsStream }
    ensures id { IfOk result (λ s. s.id ≡ id) }
    ensures doc { IfOk result (λ s. length s.doc ≤ 1_048_576) }
{
    match find_shape(doc) {
        Ok(shape) => Ok(StreamDoc {
            id,
            doc: Blob::from_bytes(alloc, doc)?,
            shape,
        }),
        Err(_) => Err("no shape".into()),
    }
}

// Runs the feeds with rings of eight samples.
fn run<S: Source + Send + Drop, K: Sink, R: Threads + Wait + Clock + Sync>(
    rt: &R,
    alloc: Global,
    streams: &[StreamDoc],
    feeds: Vec<FeedSource<S>>,
    sink: &mut K,
    batch: u64,
) -> Result<(Outcome<S>, u64), Fail>
    requires are { AreStreams streams.now }
    requires some { 1 ≤ length streams.now }
    requires few { length streams.now ≤ 64 }
    requires short { AllByRecursion (λ s. length s.doc ≤ 1_048_576) streams.now }
    requires feeds { length feeds.items ≡ length streams.now }
    requires batch { 1 ≤ batch }
{
    let room = WriterRoom::new(alloc, streams)?;
    let threads = FeedThreads::open(alloc, 8, streams, feeds)?;
    Ok(threads.record(rt, sink, room, batch))
}

// Records the feeds with rings of eight samples and batches of four.
fn record<R: Threads + Wait + Clock + Sync>(
    rt: &R,
    alloc: Global,
    streams: &[StreamDoc],
    feeds: Vec<FeedSource<Waiting<'_>>>,
    sink: &mut Counting<'_>,
) -> Result<(Vec<FeedReport>, u64), Fail>
    requires are { AreStreams streams.now }
    requires some { 1 ≤ length streams.now }
    requires few { length streams.now ≤ 64 }
    requires short { AllByRecursion (λ s. length s.doc ≤ 1_048_576) streams.now }
    requires feeds { length feeds.items ≡ length streams.now }
{
    let (outcome, home) = run(rt, alloc, streams, feeds, sink, 4)?;
    match outcome {
        Outcome::Done { reports, .. } => {
            let mut all = Vec::new(alloc);
            for i in 0..reports.len() {
                if let Some(report) = reports.get(i) {
                    all.push(*report)?;
                }
            }
            Ok((all, home))
        }
        _ => Err("not done".into()),
    }
}

#[test]
fn two_feeds_are_read_at_once(rt: HostRuntime) -> Result<(), Fail> {
    let (one, two, written) = (AtomicU64::new(0), AtomicU64::new(0), AtomicU64::new(0));
    let streams = vec![in rt.alloc();
        stream(rt.alloc(), 1, INT16)?,
        stream(rt.alloc(), 2, INT16)?,
    ]?;
    let first = feed_in_two(&[], EIGHT, &one, &two);
    let second = feed_in_two(&[], EIGHT, &two, &one);
    let feeds = vec![in rt.alloc(); first, second]?;
    let mut sink = Counting {
        held: 0,
        flag: &written,
    };
    let (reports, home) = record(&rt, rt.alloc(), &streams, feeds, &mut sink)?;
    // a ring of eight has ten blocks
    assert_eq!(rt; home, 20);
    let all = format!(in rt.alloc(); "{reports:?}")?;
    assert_eq!(rt;
        all.as_str(),
        "[FeedReport { id: 1, received: 8, kept: 8, lost: 0, end: Whole }, FeedReport { id: 2, received: 8, kept: 8, lost: 0, end: Whole }]"
    );
    Ok(())
}

#[test]
fn a_sample_is_in_the_file_while_its_feed_goes_on(rt: HostRuntime) -> Result<(), Fail> {
    let (read, written) = (AtomicU64::new(0), AtomicU64::new(0));
    let streams = vec![in rt.alloc(); stream(rt.alloc(), 1, INT16)?]?;
    let feeds = vec![in rt.alloc(); feed_in_two(ONE, ANOTHER, &read, &written)]?;
    let mut sink = Counting {
        held: 0,
        flag: &written,
    };
    let (reports, home) = record(&rt, rt.alloc(), &streams, feeds, &mut sink)?;
    assert_eq!(rt; home, 10);
    let all = format!(in rt.alloc(); "{reports:?}")?;
    assert_eq!(rt;
        all.as_str(),
        "[FeedReport { id: 1, received: 2, kept: 2, lost: 0, end: Whole }]"
    );
    Ok(())
}

// The work of an inlet on a feed of three samples, with the halt word raised or not: how it ended, how many
// samples came, and how many of the ten blocks of its lane aren't in the ring behind the join.
fn read_three<R: Wait + Clock>(
    rt: &R,
    alloc: Global,
    raised: bool,
) -> Result<(InletDone, u64, u64), Fail> {
    let int16 = stream(alloc, 1, INT16)?;
    let (mut tail, head) = make_lane(alloc, int16.shape, 8)?;
    let (own, other) = (AtomicU64::new(0), AtomicU64::new(0));
    let mut feed = feed_in_two(THREE, &[], &own, &other);
    feed.source.waits = false;
    let mut reader = FeedReader::new(alloc, feed.source, int16.shape, None, None, 4096)?;
    let (mut raiser, mut lookers) = make_halt(alloc, 1)?;
    let Some(mut looker) = lookers.pop() else {
        return Err("no looker".into());
    };
    if raised {
        raiser.raise();
    }
    let done = inlet_work(rt, &mut reader, &mut tail, &mut looker);
    let received = reader.received();
    let home = join_lane(rt, tail, head).close(rt);
    Ok((done, received, home))
}

#[test]
fn an_inlet_reads_to_the_end_where_the_word_is_down(rt: HostRuntime) -> Result<(), Fail> {
    let (done, received, home) = read_three(&rt, rt.alloc(), false)?;
    let all = format!(in rt.alloc(); "{done:?} {received} {home}")?;
    assert_eq!(rt; all.as_str(), "Ended(Whole) 3 7");
    Ok(())
}

#[test]
fn an_inlet_reads_nothing_where_the_word_is_raised(rt: HostRuntime) -> Result<(), Fail> {
    let (done, received, home) = read_three(&rt, rt.alloc(), true)?;
    let all = format!(in rt.alloc(); "{done:?} {received} {home}")?;
    assert_eq!(rt; all.as_str(), "Halted 0 10");
    Ok(())
}

#[test]
fn a_failed_write_stops_a_feed_of_numbers(rt: HostRuntime) -> Result<(), Fail> {
    let given = AtomicU64::new(0);
    let streams = vec![in rt.alloc(); stream(rt.alloc(), 1, INT16)?]?;
    let feeds = vec![in rt.alloc(); long_feed(NO_NUMBERS, b"\x01\x01\0", &given)]?;
    let mut sink = Failing {
        room: HEADERS as usize,
        faults: 0,
    };
    let (outcome, _) = run(&rt, rt.alloc(), &streams, feeds, &mut sink, 512)?;
    let Outcome::WriteFault = outcome else {
        return Err("no fault".into());
    };
    assert_eq!(rt; given.load(Ordering::SeqCst), 0);
    Ok(())
}

#[test]
fn a_failed_write_stops_a_feed_of_texts(rt: HostRuntime) -> Result<(), Fail> {
    let given = AtomicU64::new(0);
    let streams = vec![in rt.alloc(); stream(rt.alloc(), 1, STRING)?]?;
    let feeds = vec![in rt.alloc(); long_feed(NO_TEXTS, b"\x01\x01\x01a", &given)]?;
    let mut sink = Failing {
        room: STRING_HEADERS,
        faults: 0,
    };
    let (outcome, _) = run(&rt, rt.alloc(), &streams, feeds, &mut sink, 512)?;
    let Outcome::WriteFault = outcome else {
        return Err("no fault".into());
    };
    assert_eq!(rt; given.load(Ordering::SeqCst), 0);
    Ok(())
}
