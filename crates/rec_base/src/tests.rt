use crate::*;
use std::alloc::Global;
use std::test::Fail;

fn word(alloc: Global, text: &str) -> Result<Word, Fail> {
    Ok(Word::from_bytes(alloc, text.as_bytes())?)
}

fn file(alloc: Global, path: &str) -> Result<Name, Fail> {
    Ok(Name::File(word(alloc, path)?))
}

fn peer(alloc: Global, port: u16, request: &str) -> Result<Name, Fail> {
    let host = word(alloc, "amp")?;
    let request = Blob::from_bytes(alloc, request.as_bytes())?;
    Ok(Name::Peer {
        host,
        port,
        request,
    })
}

fn give(alloc: Global, text: &str) -> Result<Piece, Fail> {
    Ok(Piece::Give(Blob::from_bytes(alloc, text.as_bytes())?))
}

// A source of one piece.
fn source_of(alloc: Global, text: &str) -> Result<MemSource, Fail> {
    Ok(MemSource::new(vec![in alloc; give(alloc, text)?]?))
}

// A dock with three sources, two of them at one name.
fn dock_with(
    alloc: Global,
    room: u64,
    opens: Vec<u64>,
    writes: Vec<u64>,
    says: Vec<u64>,
) -> Result<MemDock, Fail> {
    let first = (file(alloc, "a")?, source_of(alloc, "one")?);
    let other = (peer(alloc, 9, "GET")?, source_of(alloc, "two")?);
    let again = (file(alloc, "a")?, source_of(alloc, "three")?);
    let files = vec![in alloc; first, other, again]?;
    Ok(MemDock::new(alloc, files, room, opens, writes, says)?)
}

// A dock that fails at no listed call.
fn dock_of(alloc: Global, room: u64) -> Result<MemDock, Fail> {
    dock_with(
        alloc,
        room,
        Vec::new(alloc),
        Vec::new(alloc),
        Vec::new(alloc),
    )
}

#[derive(Clone, Copy)]
enum Call {
    Open(&'static str),
    Create(&'static str),
    Write(&'static str),
    Say(&'static str),
}

// A call on any dock, and whether it went well. Each has a function of its own, since the prover takes
// long over a choice between calls that change a dock.
fn opens<D: Dock>(alloc: Global, dock: &mut D, path: &str) -> Result<bool, Fail> {
    Ok(dock.open(&file(alloc, path)?).is_ok())
}

fn creates<D: Dock>(alloc: Global, dock: &mut D, path: &str) -> Result<bool, Fail> {
    Ok(dock.create(&word(alloc, path)?).is_ok())
}

fn writes<D: Dock>(dock: &mut D, text: &str) -> bool {
    dock.write(text.as_bytes()).is_ok()
}

fn says<D: Dock>(dock: &mut D, line: &str) -> bool {
    dock.say(line).is_ok()
}

fn went_well<D: Dock>(alloc: Global, dock: &mut D, call: Call) -> Result<bool, Fail> {
    match call {
        Call::Open(path) => opens(alloc, dock, path),
        Call::Create(path) => creates(alloc, dock, path),
        Call::Write(text) => Ok(writes(dock, text)),
        Call::Say(line) => Ok(says(dock, line)),
    }
}

// What the next opening of a name gives, on any dock.
fn text_at<D: Dock>(alloc: Global, dock: &mut D, name: &Name) -> Result<Blob, Fail> {
    let mut source = dock.open(name)?;
    Ok(read_document(alloc, &mut source, 100)?)
}

#[test]
fn bytes_and_texts_are_kept(rt: HostRuntime) -> Result<(), Fail> {
    let alloc = rt.alloc();
    let blob = Blob::from_bytes(alloc, &[0, 255, 7])?;
    assert_eq!(rt; blob.bytes(), [0, 255, 7].as_slice());
    let micro = word(alloc, "µV")?;
    assert_eq!(rt; micro.bytes(), [0xC2, 0xB5, b'V'].as_slice());
    assert_eq!(rt; micro.text(), "µV");
    Ok(())
}

#[test]
fn a_source_gives_its_pieces_in_order(rt: HostRuntime) -> Result<(), Fail> {
    let alloc = rt.alloc();
    let (empty, five) = (give(alloc, "")?, give(alloc, "abcde")?);
    let (gap, last) = (give(alloc, "")?, give(alloc, "f")?);
    let pieces = vec![in alloc; empty, five, Piece::Fail, gap, Piece::Fail, last]?;
    let mut source = MemSource::new(pieces);
    let mut buf = [b'.'; 4];
    let reads = [
        (2, Ok(2), b"ab.."),
        (0, Ok(0), b"ab.."),
        (4, Ok(3), b"cde."),
        (4, Err(Failed), b"cde."),
        (0, Err(Failed), b"cde."),
        (4, Ok(1), b"fde."),
        (4, Ok(0), b"fde."),
        (4, Ok(0), b"fde."),
    ];
    for (room, want, seen) in reads {
        assert_eq!(rt; source.read(&mut buf[..room]), want);
        assert_eq!(rt; buf.as_slice(), seen.as_slice());
    }
    Ok(())
}

#[test]
fn a_document_is_read_up_to_its_limit(rt: HostRuntime) -> Result<(), Fail> {
    let alloc = rt.alloc();
    // The last is more than is asked for at once.
    for (size, limit, fits) in [
        (0, 0, true),
        (3, 3, true),
        (3, 2, false),
        (5000, 5000, true),
        (5000, 4999, false),
    ] {
        let bytes = vec![in alloc; 7u8; size]?;
        let mut source = MemSource::new(vec![in alloc;
            Piece::Give(Blob::from_bytes(alloc, &bytes)?),
        ]?);
        match read_document(alloc, &mut source, limit) {
            Ok(document) => assert!(rt; fits && document.bytes() == bytes.as_slice()),
            Err(fault) => assert!(rt; !fits && fault == DocFault::TooLong),
        }
    }
    Ok(())
}

#[test]
fn a_failed_read_refuses_the_document(rt: HostRuntime) -> Result<(), Fail> {
    let alloc = rt.alloc();
    let (front, back) = (give(alloc, "ab")?, give(alloc, "cd")?);
    let mut torn = MemSource::new(vec![in alloc; front, Piece::Fail, back]?);
    assert!(rt; matches!(read_document(alloc, &mut torn, 9), Err(DocFault::ReadFault)));
    assert_eq!(rt;
        read_document(alloc, &mut torn, 9)?.bytes(),
        b"cd".as_slice()
    );
    Ok(())
}

#[test]
fn sources_are_opened_by_name_and_in_order(rt: HostRuntime) -> Result<(), Fail> {
    let alloc = rt.alloc();
    let mut dock = dock_of(alloc, 0)?;
    let name = file(alloc, "a")?;
    assert_eq!(rt;
        text_at(alloc, &mut dock, &name)?.bytes(),
        b"one".as_slice()
    );
    assert_eq!(rt;
        text_at(alloc, &mut dock, &name)?.bytes(),
        b"three".as_slice()
    );
    for (port, request, found) in [(8, "GET", false), (9, "PUT", false), (9, "GET", true)] {
        let name = peer(alloc, port, request)?;
        assert_eq!(rt; dock.open(&name).is_ok(), found);
    }
    Ok(())
}

#[test]
fn listed_calls_fail(rt: HostRuntime) -> Result<(), Fail> {
    let alloc = rt.alloc();
    let (opens, writes) = (vec![in alloc; 1, 3]?, vec![in alloc; 2]?);
    let mut dock = dock_with(alloc, 9, opens, writes, vec![in alloc; 1]?)?;
    let calls = [
        (Call::Open("a"), false),
        (Call::Create("out"), true),
        (Call::Create("lost"), false),
        (Call::Open("a"), true),
        (Call::Write("ab"), true),
        (Call::Write("cd"), false),
        (Call::Write("ef"), true),
        (Call::Say("lost"), false),
        (Call::Say("kept"), true),
    ];
    for (call, well) in calls {
        assert_eq!(rt; went_well(alloc, &mut dock, call)?, well);
    }
    assert_eq!(rt; dock.target(), b"out".as_slice());
    assert_eq!(rt; dock.held(), b"abef".as_slice());
    assert_eq!(rt; dock.printed(), b"kept\n".as_slice());
    Ok(())
}

#[test]
fn what_was_asked_for_is_told(rt: HostRuntime) -> Result<(), Fail> {
    let alloc = rt.alloc();
    let mut dock = dock_of(alloc, 0)?;
    assert!(rt; dock.open(&file(alloc, "b")?).is_err());
    assert_eq!(rt; dock.create(&word(alloc, "out")?), Ok(()));
    let told = match dock.asked() {
        Some([Asked::Opening(Name::File(path)), Asked::Creation(out)]) => {
            path.text() == "b" && out.text() == "out"
        }
        _ => false,
    };
    assert!(rt; told);
    Ok(())
}

#[test]
fn calls_with_no_room_or_file_fail(rt: HostRuntime) -> Result<(), Fail> {
    let alloc = rt.alloc();
    let mut dock = dock_of(alloc, 4)?;
    let calls = [
        (Call::Open("b"), false, ""),
        (Call::Write("x"), false, ""),
        (Call::Create("one"), true, ""),
        (Call::Write("abc"), true, "abc"),
        (Call::Write("def"), true, "abcd"),
        (Call::Write("g"), false, "abcd"),
        (Call::Write(""), true, "abcd"),
        (Call::Say("ab"), true, "abcd"),
        (Call::Say("cdef"), false, "abcd"),
        (Call::Create("two"), true, ""),
    ];
    for (call, well, held) in calls {
        assert_eq!(rt; went_well(alloc, &mut dock, call)?, well);
        assert_eq!(rt; dock.held(), held.as_bytes());
    }
    assert_eq!(rt; dock.target(), b"two".as_slice());
    assert_eq!(rt; dock.printed(), b"ab\nc".as_slice());
    Ok(())
}

#[test]
fn a_name_that_is_too_long_is_not_created(rt: HostRuntime) -> Result<(), Fail> {
    let alloc = rt.alloc();
    let mut dock = dock_of(alloc, 0)?;
    let mut name = String::new(alloc);
    for _ in 0..4096 {
        name.push('n')?;
    }
    assert_eq!(rt; dock.create(&word(alloc, &name)?), Ok(()));
    name.push('n')?;
    assert_eq!(rt; dock.create(&word(alloc, &name)?), Err(Failed));
    assert_eq!(rt; dock.target().len(), 4096);
    Ok(())
}

#[test]
fn bytes_that_never_fail_are_given_in_order(rt: HostRuntime) -> Result<(), Fail> {
    let mut source = NeverFails::new(Blob::from_bytes(rt.alloc(), b"abcde")?);
    let mut buf = [b'.'; 3];
    for (room, want, seen) in [
        (2, 2, b"ab."),
        (0, 0, b"ab."),
        (3, 3, b"cde"),
        (3, 0, b"cde"),
    ] {
        assert_eq!(rt; source.read(&mut buf[..room]), Ok(want));
        assert_eq!(rt; buf.as_slice(), seen.as_slice());
    }
    Ok(())
}

#[test]
fn a_sink_that_grows_takes_all(rt: HostRuntime) -> Result<(), Fail> {
    let mut sink = MemSink::new(rt.alloc());
    for (bytes, held) in [("", ""), ("abc", "abc"), ("d", "abcd")] {
        assert_eq!(rt; sink.write(bytes.as_bytes()), Ok(bytes.len()));
        assert_eq!(rt; sink.held(), held.as_bytes());
    }
    Ok(())
}

#[test]
fn lines_are_counted(rt: HostRuntime) -> Result<(), Fail> {
    let mut lines = CountLines::new();
    for count in 0..3 {
        assert_eq!(rt; lines.lines(), count);
        assert_eq!(rt; lines.say("a line"), Ok(()));
    }
    Ok(())
}
