//! What a reader of a feed keeps between two reads.

ghost use Rattle.std.specs.Prelude.{◌≡◌, ◌≤◌, ◌<◌, ◌+◌, ◌-◌, ◌*◌, ◌^◌, ℕ, List, [], length, take, Option, Some, IsTrue, false, IfOk, OnErr, IsErrOf};
ghost use Rattle.std.specs.Option.{option_copied};
ghost use Rattle.std.specs.Io.KnownBytes.{IsAtEnd, Keeps, Consumes};
ghost use Rattle.rec_base.specs.Causes.{Blames};
ghost use Rattle.reading_model.specs.Outlook.{ended, failed};
ghost use Rattle.reading_model.specs.Reading.{going, done};
ghost use Rattle.piece_reader.specs.Steps.{EndsAs, Wants, end_of, gained};
ghost use Rattle.inlet_model.specs.Inlet.{before_reply, one_less};
ghost use Rattle.feed_samples.specs.Inlet.{rules_of, with_reading, end_in};
ghost use Rattle.xdf_model.specs.Sample.{size_of};
ghost use Rattle.feed_samples.specs.Blocks.{DoesBlock};
ghost use Rattle.feed_samples.specs.Kept.{Does, DoesInto, IsBeforeReply, IsBehindReply, IsGoing, IsOpen, IsShort};

use crate::block::InnerBlock;
use crate::read::{SampleFill, fill_feed_sample};
use crate::scan::SampleScan;
use crate::stage::{Inner, Quiet, Stage};
use feed_reply::{Order, ReplyScan, ReplyStep};
use inlet_model::FeedEnd;
use piece_reader::{Held, PieceFault};
use rec_base::{Memory, Source, Word};
use sample_pool::{Block, BlockRead, block_from_feed};
use sample_values::Sample;
use std::alloc::Global;
use std::marker::Model;
use xdf_model::Shape;

// Room for the longest reply that can be judged, which is 64 lines of 4098 bytes and 4098 bytes more,
// and for the longest sample of numbers, which has 32,777 bytes.
const ROOM: usize = 327_680;

/// The bytes that were taken and not gone past, and what comes next in them.
#[derive(Drop)]
pub struct Kept {
    alloc: Global,
    uid: Option<Word>,
    shape: Shape,
    held: Held,
    stage: Stage,
    // what is known of the bytes that count
    reply_scan: ReplyScan,
    sample_scan: SampleScan,
    // how many samples may still be given
    quota: Option<u64>,
    // the place of the first byte that is held
    place: usize,
    received: u64,
    byte_limit: usize,
    ending: Option<FeedEnd>,
}

impl Model for Kept {
    ghost use Rattle.std.specs.Prelude.{length, take, ◌≤◌, ◌+◌, ◌-◌, ◌^◌};
    ghost use Rattle.feed_samples.specs.Inlet.{InletState};
    ghost use Rattle.feed_samples.specs.Kept.{IsFreeAt, IsKnown, reading_of, state_of, StandsAt};

    ghost Value = { InletState };

    ghost view = { λ k. record { uid = k.uid; shape = k.shape; reading = reading_of k.ending (state_of k.stage k.quota k.place) k.held.bytes (k.byte_limit - k.place); received = k.received; byte_limit = k.byte_limit } };

    ghost invariant = { λ k. StandsAt k.stage k.place × (k.received ≤ k.place) × (k.place ≤ k.byte_limit) × (k.byte_limit ≤ 2 ^ 40) × (k.place + length k.held.bytes ≤ k.byte_limit + 1) × IsKnown k.stage k.shape (take (k.byte_limit - k.place) k.held.bytes) k.reply_scan k.sample_scan
        × (327_680 ≤ k.held.places) × IsFreeAt k.stage k.held.free };
}

// The bytes that count.
#[inline]
fn counted(bytes: &[u8], room: usize) -> &[u8]
    ensures { result.now ≡ take room bytes.now }
{
    &bytes[..room.min(bytes.len())]
}

fn uid_bytes(uid: &Option<Word>) -> Option<&[u8]>
    ensures { option_copied result ≡ uid.now }
{
    match uid {
        Some(word) => Some(word.bytes()),
        None => None,
    }
}

// Whether no sample may be given any more.
#[inline]
fn is_spent(quota: Option<u64>) -> bool
    ensures spent { IsTrue result → quota ≡ Some 0 }
    ensures open { result ≡ false → IsOpen quota }
{
    matches!(quota, Some(0))
}

#[inline]
fn less(quota: Option<u64>) -> Option<u64>
    ensures { result ≡ one_less quota }
{
    match quota {
        Some(n) => Some(n.saturating_sub(1)),
        None => None,
    }
}

impl Kept {
    /// Nothing was taken.
    pub(crate) fn new(
        alloc: Global,
        shape: Shape,
        uid: Option<Word>,
        limit: Option<u64>,
        byte_limit: usize,
    ) -> Result<Kept, Memory>
        requires { byte_limit ≤ 2 ^ 40 }
        ensures { IfOk result (λ k. k ≡ record { uid = uid; shape = shape; reading = going (before_reply limit) [] byte_limit; received = 0; byte_limit = byte_limit }) }
    {
        Ok(Kept {
            alloc,
            uid,
            shape,
            held: Held::new(alloc, ROOM)?,
            stage: Stage::Reply,
            reply_scan: ReplyScan::new(),
            sample_scan: SampleScan::new(),
            quota: limit,
            place: 0,
            received: 0,
            byte_limit,
            ending: None,
        })
    }

    /// The end, once it was answered.
    pub(crate) fn ended(&self) -> Option<FeedEnd>
        ensures end { result ≡ end_in self.now.reading }
        ensures received { self.now.received ≤ self.now.byte_limit }
    {
        self.ending
    }

    /// Where memory is taken from.
    pub(crate) fn alloc(&self) -> Global {
        self.alloc
    }

    /// How many samples were given.
    pub(crate) fn received(&self) -> u64
        ensures { result ≡ self.now.received }
    {
        self.received
    }

    // Ends the reading.
    fn finish(&mut self, end: FeedEnd)
        ensures over { self.new ≡ with_reading self.old (done end) }
        ensures received { self.new.received ≤ self.new.byte_limit }
    {
        self.ending = Some(end);
    }

    // Ends the reading by the bytes that were taken.
    fn stop(&mut self, end: FeedEnd) -> Quiet
        requires { EndsAs (rules_of self.old) self.old.reading end }
        ensures does { Does self.old self.new result }
        ensures received { self.new.received ≤ self.new.byte_limit }
    {
        self.finish(end);
        Quiet::End(end)
    }

    // Asks for more bytes, if more count.
    fn ask(&mut self) -> Quiet
        requires { IsShort (rules_of self.old) self.old.reading }
        ensures does { Does self.old self.new result }
        ensures received { self.new.received ≤ self.new.byte_limit }
    {
        if self.held.bytes().len() > self.byte_limit - self.place {
            self.stop(FeedEnd::ByteLimit)
        } else {
            Quiet::Want
        }
    }

    // What the bytes say where the reply comes next.
    fn reply_step(&mut self) -> Quiet
        requires { IsBeforeReply self.old.reading }
        ensures does { Does self.old self.new result }
        ensures received { self.new.received ≤ self.new.byte_limit }
    {
        let bytes = counted(self.held.bytes(), self.byte_limit - self.place);
        match self.reply_scan.read(bytes, uid_bytes(&self.uid)) {
            ReplyStep::Done { reply, used } => {
                self.held.pass(used);
                self.place += used;
                self.stage = Stage::Samples {
                    order: reply.order,
                    tests: 2,
                };
                self.sample_scan = SampleScan::new();
                Quiet::Again
            }
            ReplyStep::More => self.ask(),
            ReplyStep::Refused { at, why } => {
                let at = at as u64;
                self.stop(FeedEnd::ReplyRefused { at, why })
            }
        }
    }

    // What the bytes say where a sample comes next, which goes into the one that is lent.
    #[inline]
    fn sample_step(&mut self, order: Order, tests: u8, sample: &mut Sample) -> Inner
        requires { IsBehindReply order tests self.old.reading }
        ensures does { DoesInto self.old self.new sample.new result }
        ensures received { self.new.received ≤ self.new.byte_limit }
    {
        if is_spent(self.quota) {
            return Inner::Quiet(self.stop(FeedEnd::Limit));
        }
        let bytes = counted(self.held.bytes(), self.byte_limit - self.place);
        if self.sample_scan.is_still_short(&self.shape, order, bytes) {
            return Inner::Quiet(self.ask());
        }
        let place = self.place;
        match fill_feed_sample(self.alloc, &self.shape, order, bytes, sample) {
            SampleFill::Whole { used } => {
                self.held.pass(used);
                self.place += used;
                self.sample_scan = SampleScan::new();
                if tests > 0 {
                    let tests = tests - 1;
                    self.stage = Stage::Samples { order, tests };
                    return Inner::Quiet(Quiet::Again);
                }
                self.quota = less(self.quota);
                self.received += 1;
                Inner::Filled
            }
            SampleFill::Short => {
                // The next piece goes on where these bytes end.
                self.sample_scan.is_short(&self.shape, order, bytes);
                Inner::Quiet(self.ask())
            }
            SampleFill::BadTag { at, byte } => {
                let at = (place + at) as u64;
                Inner::Quiet(self.stop(FeedEnd::BadTag { at, byte }))
            }
            SampleFill::BadWidth { at, byte } => {
                let at = (place + at) as u64;
                Inner::Quiet(self.stop(FeedEnd::BadWidth { at, byte }))
            }
            SampleFill::TooLong { at } => {
                Inner::Quiet(self.stop(FeedEnd::SampleTooLong((place + at) as u64)))
            }
            SampleFill::Memory => Inner::Memory,
        }
    }

    /// What the bytes that were taken say, if they say something. A sample goes into the one that is
    /// lent.
    #[inline]
    pub(crate) fn step(&mut self, sample: &mut Sample) -> Inner
        requires { IsGoing self.old.reading }
        ensures does { DoesInto self.old self.new sample.new result }
        ensures received { self.new.received ≤ self.new.byte_limit }
    {
        match self.stage {
            Stage::Reply => Inner::Quiet(self.reply_step()),
            Stage::Samples { order, tests } => self.sample_step(order, tests, sample),
        }
    }

    // What the bytes say where a sample of numbers comes next, which goes into the block.
    #[inline]
    fn sample_block(&mut self, order: Order, tests: u8, block: &mut Block) -> InnerBlock
        requires behind { IsBehindReply order tests self.old.reading }
        requires numeric { 1 ≤ size_of self.old.shape.format }
        requires room { 9 + self.old.shape.count * size_of self.old.shape.format ≤ block.old.length }
        ensures does { DoesBlock self.old self.new block.new.bytes result }
        ensures received { self.new.received ≤ self.new.byte_limit }
        ensures length { block.new.length ≡ block.old.length }
    {
        if is_spent(self.quota) {
            return InnerBlock::Quiet(self.stop(FeedEnd::Limit));
        }
        let bytes = counted(self.held.bytes(), self.byte_limit - self.place);
        match block_from_feed(&self.shape, order, bytes, block) {
            BlockRead::Whole { used } => {
                self.held.pass(used);
                self.place += used;
                self.sample_scan = SampleScan::new();
                if tests > 0 {
                    let tests = tests - 1;
                    self.stage = Stage::Samples { order, tests };
                    return InnerBlock::Quiet(Quiet::Again);
                }
                self.quota = less(self.quota);
                self.received += 1;
                InnerBlock::Filled
            }
            BlockRead::Short => InnerBlock::Quiet(self.ask()),
            BlockRead::BadTag { at, byte } => {
                let at = (self.place + at) as u64;
                InnerBlock::Quiet(self.stop(FeedEnd::BadTag { at, byte }))
            }
        }
    }

    /// What the bytes that were taken say, if they say something. A sample goes into the block.
    #[inline]
    pub(crate) fn step_block(&mut self, block: &mut Block) -> InnerBlock
        requires going { IsGoing self.old.reading }
        requires numeric { 1 ≤ size_of self.old.shape.format }
        requires room { 9 + self.old.shape.count * size_of self.old.shape.format ≤ block.old.length }
        ensures does { DoesBlock self.old self.new block.new.bytes result }
        ensures received { self.new.received ≤ self.new.byte_limit }
        ensures length { block.new.length ≡ block.old.length }
    {
        match self.stage {
            Stage::Reply => InnerBlock::Quiet(self.reply_step()),
            Stage::Samples { order, tests } => self.sample_block(order, tests, block),
        }
    }

    /// The end where no byte is left.
    pub(crate) fn end_input(&mut self) -> FeedEnd
        requires { IsGoing self.old.reading }
        ensures value { result ≡ end_of (rules_of self.old) self.old.reading ended }
        ensures over { self.new ≡ with_reading self.old (done (end_of (rules_of self.old) self.old.reading ended)) }
    {
        let end = match self.stage {
            Stage::Reply => FeedEnd::TornReply,
            Stage::Samples { tests: 0, .. } if self.held.bytes().is_empty() => FeedEnd::Whole,
            Stage::Samples { .. } => FeedEnd::TornSample(self.place as u64),
        };
        self.finish(end);
        end
    }

    /// The end where a read failed.
    pub(crate) fn fail(&mut self) -> FeedEnd
        requires { IsGoing self.old.reading }
        ensures value { result ≡ FeedEnd.ReadFault }
        ensures over { self.new ≡ with_reading self.old (done FeedEnd.ReadFault) }
    {
        self.finish(FeedEnd::ReadFault);
        FeedEnd::ReadFault
    }

    /// Takes one piece of the source: as much as there is room for, but no more than one byte past
    /// those that count.
    pub(crate) fn take_piece<S: Source>(&mut self, source: &mut S) -> Result<usize, PieceFault>
        requires { Wants (rules_of self.old) self.old.reading }
        ensures gains { IfOk result (λ n. (bytes : List ℕ) × Consumes (S.left source.old) (S.left source.new) bytes × (length bytes ≡ n) × (self.new ≡ with_reading self.old (gained bytes self.old.reading))) }
        ensures end { IfOk result (λ n. n ≡ 0 → IsAtEnd (S.left source.new)) }
        ensures kept { OnErr result (self.new ≡ self.old) }
        ensures left { OnErr result (Keeps (S.left source.old) (S.left source.new)) }
        ensures failed { Blames (IsErrOf result PieceFault.Failed) (S.faults source.old) (S.faults source.new) }
        ensures memory { IsErrOf result PieceFault.Memory → source.new ≡ source.old }
        ensures roomy { 1 ≤ size_of self.old.shape.format → self.old.shape.count ≤ 4096 → IsErrOf result PieceFault.Memory → ⊥ }
        ensures marked { S.mark source.new ≡ S.mark source.old }
    {
        let most = self.byte_limit - self.place + 1 - self.held.bytes().len();
        self.held.read(source, most)
    }
}
