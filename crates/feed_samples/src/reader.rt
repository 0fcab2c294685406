//! The samples of a feed, from a source.

ghost use Rattle.std.specs.Prelude.{◌≡◌, ◌≤◌, ◌+◌, ◌*◌, ◌^◌, ℕ, List, IsTrue, false, IfOk};
ghost use Rattle.rec_base.specs.Causes.{Blames};
ghost use Rattle.rec_base.specs.Known.{Loses};
ghost use Rattle.reading_model.specs.Outlook.{Answered, How};
ghost use Rattle.inlet_model.specs.Inlet.{feed_counted, feed_kind};
ghost use Rattle.feed_samples.specs.Inlet.{FitsGiven, IsSameEnd, got, outlook, received_by};
ghost use Rattle.feed_samples.specs.Kept.{IsGoing};
ghost use Rattle.xdf_model.specs.Sample.{size_of};
ghost use Rattle.feed_samples.specs.declared.step.FeedStep.{FeedStep as StepValue};
ghost use Rattle.feed_samples.specs.Blocks.{EndsAgain, Tells};
ghost use Rattle.feed_samples.specs.Fillings.{filled};

use crate::block::{BlockStep, InnerBlock};
use crate::kept::Kept;
use crate::stage::{Inner, Quiet};
use crate::step::{FeedStep, FillStep, step_with};
use inlet_model::FeedEnd;
use piece_reader::PieceFault;
use rec_base::{Memory, Source, Word};
use sample_pool::Block;
use sample_values::Sample;
use std::alloc::Global;
use xdf_model::{Shape, Stamp};

/// Gives the samples of a feed, which come from a source in pieces of any size, and then how the feed
/// ended (LSL `streamfeed`, data protocol 1.10; the ends are this project's own).
#[derive(Drop)]
pub struct FeedReader<S: Source> {
    source: S,
    inlet: Kept,
}

impl<S: Source + Drop> FeedReader<S> {
    /// A reader that takes nothing yet, for a feed of samples of a shape. A uid that is given must be
    /// the reply's, if the reply tells one. `limit` is how many samples may be given, and
    /// `byte_limit` how many bytes of the feed count.
    ///
    /// It takes memory for the longest reply and for the longest sample of numbers at once; without
    /// it the source is given up.
    pub fn new(
        alloc: Global,
        source: S,
        shape: Shape,
        uid: Option<Word>,
        limit: Option<u64>,
        byte_limit: u64,
    ) -> Result<FeedReader<S>, Memory>
        requires { byte_limit ≤ 2 ^ 40 }
        ensures all { IfOk result (λ r. (more : List ℕ) (how : How) → (outlook r.inlet).coming more how ≡ feed_counted uid shape limit byte_limit more how) }
        ensures fresh { IfOk result (λ r. ((outlook r.inlet).is_over ≡ false) × (r.inlet.received ≡ 0) × (r.inlet.shape ≡ shape) × (r.inlet.byte_limit ≡ byte_limit)) }
        ensures source { IfOk result (λ r. r.source ≡ source) }
    {
        let inlet = Kept::new(alloc, shape, uid, limit, byte_limit as usize)?;
        Ok(FeedReader { source, inlet })
    }
}

impl<S: Source> FeedReader<S> {
    /// The next sample, or the end.
    ///
    /// The samples given are those behind the reply and two test samples, in order. The end is
    /// determined by the bytes that were taken and by how the input ended. `ReadFault` comes only
    /// where a read failed in the call that first answers it. After an end each call answers the same
    /// end and reads nothing.
    pub fn next(&mut self) -> FeedStep
        ensures answer { Answered feed_kind (outlook self.old.inlet) (outlook self.new.inlet) (S.left self.old.source) (S.left self.new.source) (got result) }
        ensures fits { FitsGiven self.old.inlet.shape result }
        ensures received { self.new.inlet.received ≡ received_by result self.old.inlet.received }
        ensures bounded { self.new.inlet.received ≤ self.new.inlet.byte_limit }
        ensures same_shape { (self.new.inlet.shape ≡ self.old.inlet.shape) × (self.new.inlet.byte_limit ≡ self.old.inlet.byte_limit) }
        ensures stays { IsTrue (outlook self.old.inlet).is_over → self.new ≡ self.old }
        ensures same_end { IsTrue (outlook self.old.inlet).is_over → IsSameEnd self.old.inlet.reading result }
        ensures cause { Blames (((outlook self.old.inlet).is_over ≡ false) × (result ≡ FeedStep.End FeedEnd.ReadFault)) (S.faults self.old.source) (S.faults self.new.source) }
        ensures marked { S.mark self.new.source ≡ S.mark self.old.source }
        ensures left { Loses (S.left self.old.source) (S.left self.new.source) }
    {
        let mut sample = Sample::new(self.inlet.alloc(), Stamp::None);
        let fill = self.next_into(&mut sample);
        step_with(sample, fill)
    }

    /// The next sample, which goes into the one that is lent, or the end; otherwise the same as
    /// [`next`](FeedReader::next).
    ///
    /// The memory of the lent sample is used again, and what it held before is gone. Where none is
    /// given, what it holds is not said.
    #[inline]
    pub fn next_into(&mut self, sample: &mut Sample) -> FillStep
        ensures answer { Answered feed_kind (outlook self.old.inlet) (outlook self.new.inlet) (S.left self.old.source) (S.left self.new.source) (got (filled sample.new result)) }
        ensures fits { FitsGiven self.old.inlet.shape (filled sample.new result) }
        ensures received { self.new.inlet.received ≡ received_by (filled sample.new result) self.old.inlet.received }
        ensures bounded { self.new.inlet.received ≤ self.new.inlet.byte_limit }
        ensures same_shape { (self.new.inlet.shape ≡ self.old.inlet.shape) × (self.new.inlet.byte_limit ≡ self.old.inlet.byte_limit) }
        ensures stays { IsTrue (outlook self.old.inlet).is_over → self.new ≡ self.old }
        ensures same_end { IsTrue (outlook self.old.inlet).is_over → IsSameEnd self.old.inlet.reading (filled sample.new result) }
        ensures cause { Blames (((outlook self.old.inlet).is_over ≡ false) × (result ≡ FillStep.End FeedEnd.ReadFault)) (S.faults self.old.source) (S.faults self.new.source) }
        ensures marked { S.mark self.new.source ≡ S.mark self.old.source }
        ensures left { Loses (S.left self.old.source) (S.left self.new.source) }
    {
        match self.inlet.ended() {
            Some(end) => FillStep::End(end),
            None => self.read_on(sample),
        }
    }

    // The same where no end was answered.
    #[inline]
    fn read_on(&mut self, sample: &mut Sample) -> FillStep
        requires going { IsGoing self.old.inlet.reading }
        requires bounded { self.old.inlet.received ≤ self.old.inlet.byte_limit }
        ensures answer { Answered feed_kind (outlook self.old.inlet) (outlook self.new.inlet) (S.left self.old.source) (S.left self.new.source) (got (filled sample.new result)) }
        ensures fits { FitsGiven self.old.inlet.shape (filled sample.new result) }
        ensures received { self.new.inlet.received ≡ received_by (filled sample.new result) self.old.inlet.received }
        ensures bounded { self.new.inlet.received ≤ self.new.inlet.byte_limit }
        ensures same_shape { (self.new.inlet.shape ≡ self.old.inlet.shape) × (self.new.inlet.byte_limit ≡ self.old.inlet.byte_limit) }
        ensures cause { Blames (result ≡ FillStep.End FeedEnd.ReadFault) (S.faults self.old.source) (S.faults self.new.source) }
        ensures marked { S.mark self.new.source ≡ S.mark self.old.source }
    {
        'pieces: loop {
            match self.inlet.step(sample) {
                Inner::Filled => return FillStep::Filled,
                Inner::Memory => return FillStep::Memory,
                Inner::Quiet(Quiet::End(end)) => return FillStep::End(end),
                Inner::Quiet(Quiet::Again) => {}
                Inner::Quiet(Quiet::Want) => match self.inlet.take_piece(&mut self.source) {
                    Ok(0) => return FillStep::End(self.inlet.end_input()),
                    Ok(_) => {}
                    Err(PieceFault::Memory) => return FillStep::Memory,
                    Err(PieceFault::Failed) => return FillStep::End(self.inlet.fail()),
                },
            }
        }
    }

    /// The next sample of a feed of numbers, as its text in a file (XDF 1.0, "Samples chunk"), or the
    /// end; otherwise the same as [`next`](FeedReader::next).
    ///
    /// The text is the least one: a byte 0, or a byte 8 and the stamp, and then the numbers; stamp and
    /// numbers have their lowest byte first. No memory is taken. Where no sample is given, what the
    /// block holds is not said.
    #[inline]
    pub fn next_block(&mut self, block: &mut Block) -> BlockStep
        requires numeric { 1 ≤ size_of self.old.inlet.shape.format }
        requires count { self.old.inlet.shape.count ≤ 4096 }
        requires space { 9 + self.old.inlet.shape.count * size_of self.old.inlet.shape.format ≤ block.old.length }
        ensures answer { (step : StepValue) × Tells self.old.inlet.shape block.new.bytes step result
            × Answered feed_kind (outlook self.old.inlet) (outlook self.new.inlet) (S.left self.old.source) (S.left self.new.source) (got step)
            × FitsGiven self.old.inlet.shape step × (self.new.inlet.received ≡ received_by step self.old.inlet.received) }
        ensures bounded { self.new.inlet.received ≤ self.new.inlet.byte_limit }
        ensures same_shape { (self.new.inlet.shape ≡ self.old.inlet.shape) × (self.new.inlet.byte_limit ≡ self.old.inlet.byte_limit) }
        ensures stays { IsTrue (outlook self.old.inlet).is_over → self.new ≡ self.old }
        ensures same_end { IsTrue (outlook self.old.inlet).is_over → EndsAgain self.old.inlet.reading result }
        ensures cause { Blames (((outlook self.old.inlet).is_over ≡ false) × (result ≡ BlockStep.End FeedEnd.ReadFault)) (S.faults self.old.source) (S.faults self.new.source) }
        ensures marked { S.mark self.new.source ≡ S.mark self.old.source }
        ensures left { Loses (S.left self.old.source) (S.left self.new.source) }
        ensures length { block.new.length ≡ block.old.length }
    {
        match self.inlet.ended() {
            Some(end) => BlockStep::End(end),
            None => self.fill_on(block),
        }
    }

    // The same where no end was answered.
    #[inline]
    fn fill_on(&mut self, block: &mut Block) -> BlockStep
        requires going { IsGoing self.old.inlet.reading }
        requires bounded { self.old.inlet.received ≤ self.old.inlet.byte_limit }
        requires numeric { 1 ≤ size_of self.old.inlet.shape.format }
        requires count { self.old.inlet.shape.count ≤ 4096 }
        requires space { 9 + self.old.inlet.shape.count * size_of self.old.inlet.shape.format ≤ block.old.length }
        ensures answer { (step : StepValue) × Tells self.old.inlet.shape block.new.bytes step result
            × Answered feed_kind (outlook self.old.inlet) (outlook self.new.inlet) (S.left self.old.source) (S.left self.new.source) (got step)
            × FitsGiven self.old.inlet.shape step × (self.new.inlet.received ≡ received_by step self.old.inlet.received) }
        ensures bounded { self.new.inlet.received ≤ self.new.inlet.byte_limit }
        ensures same_shape { (self.new.inlet.shape ≡ self.old.inlet.shape) × (self.new.inlet.byte_limit ≡ self.old.inlet.byte_limit) }
        ensures cause { Blames (result ≡ BlockStep.End FeedEnd.ReadFault) (S.faults self.old.source) (S.faults self.new.source) }
        ensures marked { S.mark self.new.source ≡ S.mark self.old.source }
        ensures length { block.new.length ≡ block.old.length }
    {
        'pieces: loop {
            match self.inlet.step_block(block) {
                InnerBlock::Filled => return BlockStep::Filled,
                InnerBlock::Quiet(Quiet::End(end)) => return BlockStep::End(end),
                InnerBlock::Quiet(Quiet::Again) => {}
                InnerBlock::Quiet(Quiet::Want) => match self.inlet.take_piece(&mut self.source) {
                    Ok(0) => return BlockStep::End(self.inlet.end_input()),
                    Ok(_) => {}
                    Err(PieceFault::Memory) => unreachable!(),
                    Err(PieceFault::Failed) => return BlockStep::End(self.inlet.fail()),
                },
            }
        }
    }

    /// The number of samples given. It is at most the limit of bytes.
    pub fn received(&self) -> u64
        ensures { result ≡ self.now.inlet.received }
    {
        self.inlet.received()
    }

    /// Gives the source back. Bytes that were taken and not gone past are gone.
    pub fn into_source(self) -> S
        ensures { result ≡ self.source }
    {
        self.source
    }
}
