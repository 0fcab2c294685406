use crate::run::run;
use real_dock::{RealDock, RealSource};
use rec_base::{Blob, Dock, Failed, Name, Source, Word};
use std::alloc::Global;
use std::fs::File;
use std::io::{self, Read, Write};
use std::net::{IpAddr, Ipv4Addr, Ipv6Addr, SocketAddr, TcpListener, TcpStream};
use std::test::Fail;
use std::time::{Clock, Duration};
use std::{fs, thread};

// A request has any lines; a peer knows its end by the empty one.
const REQUEST: &[u8] =
    b"LSL:streamfeed/110 u1\r\nValue-Size: 2\r\nMax-Buffer-Length: 36000\r\n\r\n";

// A reply, two test samples of one zero, and the samples 1, 2 and 3 without a stamp.
const FEED: &[u8] =
    b"LSL/110 200 OK\r\nUID: u1\r\nByte-Order: 1234\r\nSuppress-Subnormals: 0\r\nData-Protocol-Version: 110\r\n\r\n\x02\0\0\0\0\0\0\0\0\0\0\x02\0\0\0\0\0\0\0\0\0\0\x01\x01\0\x01\x02\0\x01\x03\0";

// How a peer answers.
#[derive(Clone, Copy)]
struct Manner {
    // how many bytes it sends, how many of them at once, and how long it waits behind each piece
    sent: usize,
    piece: usize,
    pause: u64,
    // whether it reads the whole request; the system resets a connection that is closed before
    listens: bool,
}

const BURST: Manner = Manner {
    sent: 128,
    piece: 128,
    pause: 0,
    listens: true,
};

// The request up to its empty line.
fn request_from(alloc: Global, peer: &mut TcpStream) -> io::Result<Vec<u8>> {
    let mut request = Vec::new(alloc);
    let mut byte = [0u8; 1];
    for _ in 0..u16::MAX {
        peer.read_exact(&mut byte)?;
        request.push(byte[0])?;
        if request.ends_with(b"\r\n\r\n") {
            break;
        }
    }
    Ok(request)
}

// Takes one connection, reads the request or a byte of it, and answers in this manner.
fn serve(
    rt: &impl Clock,
    alloc: Global,
    listener: &TcpListener,
    manner: Manner,
) -> io::Result<Vec<u8>> {
    let (mut peer, _) = listener.accept()?;
    if !manner.listens {
        peer.read_exact(&mut [0])?;
        return Ok(Vec::new(alloc));
    }
    let request = request_from(alloc, &mut peer)?;
    let feed = FEED.get(..manner.sent).unwrap_or(FEED);
    for piece in feed.chunks(manner.piece.max(1)) {
        peer.write_all(piece)?;
        thread::sleep(rt, Duration::from_millis(manner.pause));
    }
    Ok(request)
}

// Opens the peer under this name of its host.
fn open(rt: &HostRuntime, host: &str, port: u16) -> Result<RealSource<File, TcpStream>, Fail> {
    let alloc: Global = rt.alloc();
    let mut dock = RealDock::new(alloc, *rt, rt.stdout(), None)?;
    Ok(dock.open(&peer_name(alloc, host, port)?)?)
}

fn peer_name(alloc: Global, host: &str, port: u16) -> Result<Name, Fail> {
    Ok(Name::Peer {
        host: Word::from_bytes(alloc, host.as_bytes())?,
        port,
        request: Blob::from_bytes(alloc, REQUEST)?,
    })
}

fn listen(rt: &HostRuntime, address: IpAddr) -> io::Result<TcpListener> {
    TcpListener::bind(rt, SocketAddr::new(address, 0))
}

// The bytes up to the end or to a failed read, and whether one failed.
fn read_to_end(
    alloc: Global,
    source: &mut RealSource<File, TcpStream>,
) -> Result<(Vec<u8>, bool), Fail> {
    let mut got = Vec::new(alloc);
    let mut buf = [0u8; 200];
    for _ in 0..u16::MAX {
        match source.read(&mut buf) {
            Ok(0) => break,
            Ok(n) => got.extend_from_slice(&buf[..n])?,
            Err(Failed) => return Ok((got, true)),
        }
    }
    Ok((got, false))
}

#[test]
fn peers_are_read_as_they_send(rt: HostRuntime) -> Result<(), Fail> {
    let alloc: Global = rt.alloc();
    let slow = Manner {
        piece: 1,
        pause: 1,
        ..BURST
    };
    let bursting = Manner {
        piece: 50,
        pause: 20,
        ..BURST
    };
    let breaking = Manner { sent: 127, ..BURST };
    let resetting = Manner {
        listens: false,
        ..BURST
    };
    for (manner, count, failed) in [
        (slow, 128, false),
        (bursting, 128, false),
        (breaking, 127, false),
        (resetting, 0, true),
    ] {
        let listener = listen(&rt, IpAddr::V4(Ipv4Addr::LOCALHOST))?;
        let port = listener.local_addr()?.port();
        let clock = rt.clone()?;
        let peer = thread::spawn(&rt, move || serve(&clock, alloc, &listener, manner))?;
        let mut source = open(&rt, "127.0.0.1", port)?;
        let (got, fails) = read_to_end(alloc, &mut source)?;
        assert_eq!(rt; (got.len(), fails), (count, failed));
        assert!(rt; FEED.starts_with(&got));
        let request = peer.join(&rt)?;
        assert_eq!(rt;
            request.as_slice(),
            if manner.listens { REQUEST } else { b"" }
        );
    }
    Ok(())
}

#[test]
fn a_burst_is_read_at_once(rt: HostRuntime) -> Result<(), Fail> {
    let alloc: Global = rt.alloc();
    for (host, address) in [
        ("127.0.0.1", IpAddr::V4(Ipv4Addr::LOCALHOST)),
        // A name may have addresses at which nobody listens.
        ("localhost", IpAddr::V4(Ipv4Addr::LOCALHOST)),
        ("::1", IpAddr::V6(Ipv6Addr::LOCALHOST)),
    ] {
        let Ok(listener) = listen(&rt, address) else {
            // Some machines have no address of version 6.
            assert_eq!(rt; host, "::1");
            continue;
        };
        let port = listener.local_addr()?.port();
        let clock = rt.clone()?;
        let peer = thread::spawn(&rt, move || serve(&clock, alloc, &listener, BURST))?;
        let mut source = open(&rt, host, port)?;
        let request = peer.join(&rt)?;
        assert_eq!(rt; request.as_slice(), REQUEST);
        let mut buf = [0u8; 200];
        assert_eq!(rt; source.read(&mut buf), Ok(128));
        assert_eq!(rt; buf.get(..128), Some(FEED));
        assert_eq!(rt; source.read(&mut buf), Ok(0));
    }
    Ok(())
}

#[test]
fn a_peer_that_is_not_there_is_not_opened(rt: HostRuntime) -> Result<(), Fail> {
    let alloc: Global = rt.alloc();
    let listener = listen(&rt, IpAddr::V4(Ipv4Addr::LOCALHOST))?;
    let port = listener.local_addr()?.port();
    drop(listener);
    let mut dock = RealDock::new(alloc, rt, rt.stdout(), None)?;
    // Nobody listens there, and no machine has the second name.
    for host in ["127.0.0.1", "no\0host"] {
        assert!(rt;
            dock.open(&peer_name(alloc, host, port)?).is_err(),
            "{host}"
        );
    }
    Ok(())
}

#[test]
fn an_outlet_is_recorded(rt: HostRuntime) -> Result<(), Fail> {
    let alloc: Global = rt.alloc();
    let doc = "<info><channel_count>1</channel_count><channel_format>int16</channel_format></info>";
    let listener = listen(&rt, IpAddr::V4(Ipv4Addr::LOCALHOST))?;
    let port = listener.local_addr()?.port();
    let plan = format!(in alloc; "feed 1 doc outlet_doc tcp 127.0.0.1 {port} u1\n")?;
    fs::write(&rt, "outlet_doc", doc)?;
    fs::write(&rt, "outlet_plan", plan.as_str())?;
    let _ = fs::remove_file(&rt, "outlet_out");
    let clock = rt.clone()?;
    let peer = thread::spawn(&rt, move || serve(&clock, alloc, &listener, BURST))?;
    let mut words = Vec::new(alloc);
    for text in ["record", "outlet_plan", "outlet_out"] {
        words.push(Word::from_bytes(alloc, text.as_bytes())?)?;
    }
    let mut dock = RealDock::new(alloc, rt, rt.stdout(), None)?;
    assert_eq!(rt; run(&rt, alloc, &words, &mut dock), 0);
    let request = peer.join(&rt)?;
    assert!(rt; request.starts_with(b"LSL:streamfeed/110 u1\r\n"));
    // The three samples of the feed, in one chunk, in two or in three: a file without them has 527 bytes.
    let size = fs::read(&rt, "outlet_out")?.len();
    assert!(rt; [546, 556, 566].contains(&size), "{size}");
    for name in ["outlet_plan", "outlet_doc", "outlet_out"] {
        fs::remove_file(&rt, name)?;
    }
    Ok(())
}
