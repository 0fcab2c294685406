use crate::record_main;
use rec_base::{Blob, MemDock, MemSource, Name, Piece, Word};
use std::alloc::Global;
use std::rt::Clock;
use std::sync::Wait;
use std::test::Fail;
use std::thread::Threads;

// The header document of one channel of `int16`.
pub(crate) const INT16_DOCUMENT: &[u8] =
    b"<info><channel_count>1</channel_count><channel_format>int16</channel_format></info>";

// The reply, and both test samples.
pub(crate) const FEED_FRONT: &[u8] =
    b"LSL/110 200 OK\r\nUID: u1\r\nByte-Order: 1234\r\nSuppress-Subnormals: 0\r\nData-Protocol-Version: 110\r\n\r\n\x02\0\0\0\0\0\0\0\0\0\0\x02\0\0\0\0\0\0\0\0\0\0";

// Three samples: the numbers from 1 on.
pub(crate) const THREE_SAMPLES: &[u8] = b"\x01\x01\0\x01\x02\0\x01\x03\0";

// Where an input of the dock is: a file at a path, or a peer at host `m` and port 16572 that is sent
// this request.
#[derive(Clone, Copy)]
pub(crate) enum At<'a> {
    Path(&'a str),
    Peer(&'a [u8]),
}

// An input: its bytes, and whether the read behind them fails.
#[derive(Clone, Copy)]
pub(crate) struct TestFile<'a> {
    pub(crate) at: At<'a>,
    pub(crate) bytes: &'a [u8],
    pub(crate) fails: bool,
}

// A file that can be read.
pub(crate) fn file<'a>(path: &'a str, bytes: &'a [u8]) -> TestFile<'a> {
    TestFile {
        at: At::Path(path),
        bytes,
        fails: false,
    }
}

// An outlet that can be read.
pub(crate) fn peer<'a>(request: &'a [u8], bytes: &'a [u8]) -> TestFile<'a> {
    TestFile {
        at: At::Peer(request),
        bytes,
        fails: false,
    }
}

// The calls of a dock that fail, counted from 1 for each kind; 0 stands for none.
#[derive(Clone, Copy)]
pub(crate) struct Fails {
    pub(crate) open: u64,
    pub(crate) write: u64,
    pub(crate) say: u64,
}

pub(crate) const NONE: Fails = Fails {
    open: 0,
    write: 0,
    say: 0,
};

// What is wanted of a recording: its status, what it prints, and whether it creates the output.
#[derive(Clone, Copy)]
pub(crate) struct Want<'a> {
    pub(crate) status: u8,
    pub(crate) printed: &'a str,
    pub(crate) creates: bool,
}

// A feed of three samples.
pub(crate) fn three_samples(alloc: Global) -> Result<Vec<u8>, Fail> {
    let mut feed = Vec::new(alloc);
    feed.extend_from_slice(FEED_FRONT)?;
    feed.extend_from_slice(THREE_SAMPLES)?;
    Ok(feed)
}

fn source(alloc: Global, file: TestFile<'_>) -> Result<(Name, MemSource), Fail> {
    let name = match file.at {
        At::Path(path) => Name::File(Word::from_bytes(alloc, path.as_bytes())?),
        At::Peer(request) => Name::Peer {
            host: Word::from_bytes(alloc, "m".as_bytes())?,
            port: 16572,
            request: Blob::from_bytes(alloc, request)?,
        },
    };
    let mut pieces = Vec::new(alloc);
    if !file.bytes.is_empty() {
        pieces.push(Piece::Give(Blob::from_bytes(alloc, file.bytes)?))?;
    }
    if file.fails {
        pieces.push(Piece::Fail)?;
    }
    Ok((name, MemSource::new(pieces)))
}

// The status of the call on a dock with these files, and the dock behind it.
pub(crate) fn record_on(
    rt: &(impl AllocGlobal + Threads + Wait + Clock + Sync),
    words: &[&str],
    files: &[TestFile<'_>],
    fails: Fails,
) -> Result<(u8, MemDock), Fail> {
    let alloc: Global = rt.alloc();
    let mut sources = Vec::new(alloc);
    for file in files {
        sources.push(source(alloc, *file)?)?;
    }
    let mut dock = MemDock::new(
        alloc,
        sources,
        1_100_000,
        vec![in alloc; fails.open]?,
        vec![in alloc; fails.write]?,
        vec![in alloc; fails.say]?,
    )?;
    let mut command = Vec::new(alloc);
    for word in words {
        command.push(Word::from_bytes(alloc, word.as_bytes())?)?;
    }
    let status = record_main(rt, alloc, &command, &mut dock);
    Ok((status, dock))
}

// Whether the call answers as it is wanted to.
pub(crate) fn records(
    rt: &(impl AllocGlobal + Threads + Wait + Clock + Sync),
    words: &[&str],
    files: &[TestFile<'_>],
    fails: Fails,
    want: Want<'_>,
) -> Result<bool, Fail> {
    let (status, dock) = record_on(rt, words, files, fails)?;
    let created = dock.target() == b"out".as_slice();
    Ok(
        status == want.status
            && dock.printed() == want.printed.as_bytes()
            && created == want.creates,
    )
}

// Whether a plan with the header document of one int16 channel at `h` and a feed at `a` is recorded
// as it is wanted.
pub(crate) fn records_plan(
    rt: &(impl AllocGlobal + Threads + Wait + Clock + Sync),
    plan: &[u8],
    feed: &[u8],
    fails: Fails,
    want: Want<'_>,
) -> Result<bool, Fail> {
    let files = [file("p", plan), file("h", INT16_DOCUMENT), file("a", feed)];
    records(rt, &["record", "p", "out"], &files, fails, want)
}
