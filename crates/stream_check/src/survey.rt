//! What is kept of a file while it is read.

ghost use Rattle.std.specs.Prelude.{◌≡◌, ◌∷◌, ◌++◌, ◌&&◌, ◌||◌, ◌==◌, List, [], IfOk, OnOk, length, map, if◌then◌else◌};
ghost use Rattle.chunk_grammar.specs.declared.chunk.Chunk.TheVariants.{StreamHeader};
ghost use Rattle.recording_model.specs.Recording.{ledger_document};
ghost use Rattle.file_model.specs.Reader.{ChunkAt};
ghost use Rattle.report_model.specs.GoodRows.{is_ledger_header};
ghost use Rattle.report_model.specs.Notes.{chunks_in, has_bad_sample, is_repeated};
ghost use Rattle.stream_check.specs.Kept.{begun_at, bad_rows, closed, counted, kept_rows};
ghost use Rattle.stream_check.specs.Survey.{Knows, FitsIn, context_of, footer_view};

use crate::kept::{Footer, Kept, close_stream, count_samples, is_closed, take_rows};
use chunk_grammar::{Chunk, SampleList};
use rec_base::{Blob, Memory};
use shape_pattern::{Element, find_number};
use std::alloc::Global;

/// What is kept of a file: its streams in the order of their headers, whether a file header came,
/// and whether the header of a ledger did.
#[derive(Debug, Drop)]
pub(crate) struct Survey {
    pub(crate) streams: Vec<Kept>,
    pub(crate) begun: bool,
    pub(crate) ledger: bool,
}

// The header document of a ledger.
fn ledger_bytes() -> &'static [u8]
    ensures { result.now ≡ ledger_document }
{
    b"<?xml version=\"1.0\"?><info><name>overruns</name><type>ledger</type><channel_count>3</channel_count><nominal_srate>0</nominal_srate><channel_format>int64</channel_format></info>"
}

fn footer_at(at: u64, doc: &Blob) -> Footer
    ensures { result ≡ footer_view (at, doc.now) }
{
    Footer {
        at,
        samples: find_number(doc.bytes(), Element::SampleCount),
        overruns: find_number(doc.bytes(), Element::Overruns),
    }
}

impl Survey {
    /// What is kept before the first chunk. It takes no memory.
    pub(crate) fn new(alloc: Global) -> Survey
        ensures { Knows [] result }
    {
        Survey {
            streams: Vec::new(alloc),
            begun: false,
            ledger: false,
        }
    }

    /// Whether the chunk is a file header or a footer that stands behind another.
    pub(crate) fn is_repeated(&self, chunk: &Chunk) -> bool
        ensures { (items : List ChunkAt) → Knows items self.now → FitsIn (context_of items) chunk.now → result ≡ is_repeated (chunks_in items) chunk.now }
    {
        match chunk {
            Chunk::FileHeader { .. } => self.begun,
            Chunk::StreamFooter { id, .. } => is_closed(&self.streams, *id),
            _ => false,
        }
    }

    // The header of a stream came.
    fn declare(&mut self, at: u64, id: u32, doc: &Blob) -> Result<(), Memory>
        ensures streams { OnOk result (self.new.streams.items ≡ self.old.streams.items ++ begun_at at id ∷ []) }
        ensures ledger { OnOk result (self.new.ledger ≡ (self.old.ledger || is_ledger_header (StreamHeader id doc.now))) }
        ensures begun { self.new.begun ≡ self.old.begun }
    {
        self.streams.push(Kept::new(id, at))?;
        self.ledger |= id == 0 && doc.bytes() == ledger_bytes();
        Ok(())
    }

    // Samples came. Those of a ledger are rows.
    fn take_samples(&mut self, id: u32, samples: &SampleList) -> bool
        ensures bad { result ≡ (self.old.ledger && id == 0 && bad_rows samples.now self.old.streams.items) }
        ensures streams { self.new.streams.items ≡ map (counted id (length samples.now)) (if self.old.ledger && id == 0 then kept_rows samples.now self.old.streams.items else self.old.streams.items) }
        ensures ledger { self.new.ledger ≡ self.old.ledger }
        ensures begun { self.new.begun ≡ self.old.begun }
    {
        let bad = self.ledger && id == 0 && take_rows(&mut self.streams, samples);
        count_samples(&mut self.streams, id, samples.len());
        bad
    }

    // The footer of a stream came.
    fn close(&mut self, at: u64, id: u32, doc: &Blob)
        ensures streams { self.new.streams.items ≡ map (closed id (footer_view (at, doc.now))) self.old.streams.items }
        ensures ledger { self.new.ledger ≡ self.old.ledger }
        ensures begun { self.new.begun ≡ self.old.begun }
    {
        close_stream(&mut self.streams, id, footer_at(at, doc));
    }

    /// Takes a chunk into account, and tells whether it has a bad row. `Memory` comes for want of memory
    /// alone.
    pub(crate) fn take(&mut self, at: u64, chunk: &Chunk) -> Result<bool, Memory>
        ensures bad { IfOk result (λ bad. (items : List ChunkAt) → Knows items self.old → FitsIn (context_of items) chunk.now → bad ≡ has_bad_sample (chunks_in items) chunk.now) }
        ensures knows { OnOk result ((items : List ChunkAt) → Knows items self.old → FitsIn (context_of items) chunk.now → Knows (items ++ (at, chunk.now) ∷ []) self.new) }
    {
        match chunk {
            Chunk::FileHeader { .. } => {
                self.begun = true;
                Ok(false)
            }
            Chunk::StreamHeader { id, doc } => {
                self.declare(at, *id, doc)?;
                Ok(false)
            }
            Chunk::Samples { id, samples } => Ok(self.take_samples(*id, samples)),
            Chunk::StreamFooter { id, doc } => {
                self.close(at, *id, doc);
                Ok(false)
            }
            _ => Ok(false),
        }
    }
}
