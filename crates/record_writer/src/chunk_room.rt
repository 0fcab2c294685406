//! A Samples chunk that is being made, and written with the boundary that is due behind it.

ghost use Rattle.std.specs.Prelude.{◌≡◌, ◌≤◌, ◌<◌, ◌+◌, ◌++◌, ◌^◌, [], IfOk, OnOk, OnErr, length, max, vec_capacity};
ghost use Rattle.std.specs.Io.KnownBytes.{Appends};
ghost use Rattle.rec_base.specs.Causes.{HasCause};
ghost use Rattle.rec_base.specs.Known.{AppendsFront};
ghost use Rattle.record_writer.specs.ChunkRoom.{ChunkRoomState};
ghost use Rattle.record_writer.specs.Texts.{raw_text, with_boundary};

use crate::piece::{put_before, put_due, write_all};
use crate::put::{put_bytes, put_head};
use rec_base::{Failed, Memory, Sink};
use std::alloc::Global;
use std::marker::Model;

/// The texts of a Samples chunk that is being made, in places of which the first 24 are kept free for
/// what stands in front of them, and 20 more for a boundary behind them. So all goes out in one write,
/// and no text is copied again.
#[derive(Debug, Drop)]
pub(crate) struct ChunkRoom {
    bytes: Vec<u8>,
    room: usize,
}

impl Model for ChunkRoom {
    ghost use Rattle.std.specs.Prelude.{◌≤◌, ◌+◌, drop, length, vec_capacity};
    ghost use Rattle.record_writer.specs.ChunkRoom.{ChunkRoomState};

    ghost Value = { ChunkRoomState };

    ghost view = { λ p. record { texts = drop 24 p.bytes.items; room = p.room } };

    ghost invariant = { λ p. (24 ≤ length p.bytes.items) × (length p.bytes.items ≤ p.room + 24) × (p.room + 44 ≤ vec_capacity p.bytes) };
}

impl ChunkRoom {
    /// A chunk without texts, whose texts may take so many bytes.
    pub(crate) fn new(alloc: Global, room: usize) -> Result<ChunkRoom, Memory>
        requires { room < 2 ^ 32 }
        ensures { IfOk result (λ p. p ≡ record { texts = []; room = room }) }
    {
        let mut bytes = Vec::with_capacity(alloc, room + 44)?;
        put_bytes(&[0; 24], &mut bytes);
        Ok(ChunkRoom { bytes, room })
    }

    /// How many bytes the texts have.
    #[inline(always)]
    pub(crate) fn len(&self) -> usize
        ensures { result ≡ length self.now.texts }
    {
        self.bytes.len() - 24
    }

    /// How many bytes the texts may take.
    #[inline(always)]
    pub(crate) fn room(&self) -> usize
        ensures { result ≡ self.now.room }
    {
        self.room
    }

    /// Leaves no texts.
    pub(crate) fn clear(&mut self)
        ensures { self.new ≡ record self.old { texts = [] } }
    {
        self.bytes.truncate(24);
    }

    /// Makes room for a text of so many bytes, where there is less.
    pub(crate) fn make_room(&mut self, size: usize) -> Result<(), Memory>
        ensures ok { OnOk result (self.new ≡ record self.old { room = max size self.old.room }) }
        ensures memory { OnErr result (self.new ≡ self.old) }
    {
        if size > self.room {
            self.bytes.reserve(size.saturating_add(20))?;
            self.room = size;
        }
        Ok(())
    }

    /// Appends a text.
    #[inline(always)]
    pub(crate) fn put(&mut self, text: &[u8])
        requires { length self.old.texts + length text.now ≤ self.old.room }
        ensures { self.new ≡ record self.old { texts = self.old.texts ++ text.now } }
    {
        put_bytes(text, &mut self.bytes);
    }

    /// Writes the chunk, and the boundary that is due where so many bytes stand since the last one. It
    /// answers the size of the chunk. What stands in front of the texts is made in `head`.
    pub(crate) fn write<K: Sink>(
        &mut self,
        sink: &mut K,
        head: &mut Vec<u8>,
        since: u64,
        id: u32,
        count: u64,
    ) -> Result<u64, Failed>
        requires head { 24 ≤ vec_capacity head.old }
        requires size { length self.old.texts < 2 ^ 31 }
        requires since { since < 2 ^ 40 }
        ensures stays { self.new ≡ self.old }
        ensures ok { OnOk result (Appends (K.held sink.old) (K.held sink.new) (with_boundary since (raw_text id count self.old.texts))) }
        ensures size { IfOk result (λ n. n ≡ length (raw_text id count self.old.texts)) }
        ensures small { IfOk result (λ n. n < 2 ^ 32) }
        ensures front { AppendsFront (K.held sink.old) (K.held sink.new) (with_boundary since (raw_text id count self.old.texts)) }
        ensures cause { HasCause (K.write_faults sink.old) (K.write_faults sink.new) result }
        ensures rest { K.rest sink.new ≡ K.rest sink.old }
        ensures head { vec_capacity head.old ≤ vec_capacity head.new }
    {
        let end = self.bytes.len();
        put_head(id, count, (end - 24) as u64, head);
        let from = put_before(head, &mut self.bytes);
        let size = (end - from) as u64;
        put_due(since + size, &mut self.bytes);
        let done = write_all(sink, &self.bytes[from..]);
        self.bytes.truncate(end);
        done?;
        Ok(size)
    }
}
