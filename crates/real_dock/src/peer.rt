//! A peer that is asked for its feed, by TCP.

ghost use Rattle.std.specs.Prelude.{◌<ℤ◌, pos, IfOk, IfSome};
ghost use Rattle.std.specs.Io.KnownBytes.{Appends};

use crate::streams::peer_beside_streams;
use crate::system::System;
use refusal_text::Cause;
use std::io::{self, Write};
use std::net::OpenStream;

/// Connects to a port of a host, and sends the whole request. A refusal comes where the host's name has
/// no address, where none takes the connection, or where the request doesn't go out whole. No time is
/// set for any of it, and none for the reads that follow.
pub(crate) fn open_peer<S: System>(
    system: &S,
    host: &str,
    port: u16,
    request: &[u8],
) -> Result<S::Peer, Cause>
    ensures { IfOk result (λ peer. IfSome (S.Peer.raw_fd peer) (λ number. pos 2 <ℤ number)) }
{
    match ask_peer(system, host, port, request) {
        Ok(peer) => match peer_beside_streams(peer) {
            Some(peer) => Ok(peer),
            None => Err(Cause::NoNumber),
        },
        Err(fault) => Err(Cause::System(fault)),
    }
}

// Connects, and sends the whole request.
fn ask_peer<S: System>(system: &S, host: &str, port: u16, request: &[u8]) -> io::Result<S::Peer>
    ensures sent { IfOk result (λ peer. (fresh : S.Peer) × Appends (S.Peer.Write.contents fresh) (S.Peer.Write.contents peer) request.now) }
{
    let mut peer = system.connect(host, port)?;
    // The system would let a short request wait. Where it can't be told not to, nothing else is lost.
    let _ = peer.set_nodelay(true);
    peer.write_all(request)?;
    Ok(peer)
}
