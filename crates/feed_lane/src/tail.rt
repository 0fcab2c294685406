//! The end of a lane that puts.

ghost use Rattle.std.specs.Prelude.{◌≡◌, ◌≤◌, ◌<◌, ◌≢◌, ◌^◌, false, length};
ghost use Rattle.rec_base.specs.Causes.{Blames};
ghost use Rattle.reading_model.specs.Outlook.{Answered};
ghost use Rattle.xdf_model.specs.Sample.{size_of};
ghost use Rattle.inlet_model.specs.Inlet.{feed_kind};
ghost use Rattle.feed_samples.specs.declared.step.FeedStep.{FeedStep as StepValue};
ghost use Rattle.feed_samples.specs.Inlet.{FitsGiven, got, outlook, received_by};
ghost use Rattle.feed_lane.specs.Lanes.{IsPutTo};

use crate::block_tail::BlockTail;
use crate::step::LaneStep;
use crate::text_tail::TextTail;
use feed_samples::{FeedEnd, FeedReader};
use rec_base::Source;
use std::marker::Model;
use std::rt::Clock;
use std::sync::Wait;

/// The end by kind.
#[derive(Drop)]
pub(crate) enum TailEnds {
    /// Of numbers.
    Numbers(BlockTail),
    /// Of texts.
    Texts(TextTail),
}

/// The end of a lane that puts, which the thread that reads the feed owns. This project's own.
#[derive(Drop)]
pub struct LaneTail {
    pub(crate) ends: TailEnds,
}

impl Model for LaneTail {
    ghost use Rattle.feed_lane.specs.Lanes.{TailView};
    ghost use Rattle.feed_lane.specs.Ends.{tail_in, IsTailOfKind};

    ghost Value = { TailView };

    ghost view = { λ t. tail_in t.ends };

    ghost invariant = { λ t. IsTailOfKind t.ends };
}

impl LaneTail {
    /// What the reader answers next; a sample is put. Where the ring is full, its oldest sample is dropped
    /// first. With numbers it takes no memory: the samples' blocks are used again, and where none is home,
    /// the thread sleeps until one is.
    pub fn take_from<S: Source, R: Wait + Clock>(
        &mut self,
        rt: &R,
        reader: &mut FeedReader<S>,
    ) -> LaneStep
        requires shape { self.old.lane.shape ≡ reader.old.inlet.shape }
        requires room { length self.old.puts < 2 ^ 41 }
        ensures same { self.new.lane ≡ self.old.lane }
        ensures put { (step : StepValue) × IsPutTo self.old self.new step result
            × Answered feed_kind (outlook reader.old.inlet) (outlook reader.new.inlet) (S.left reader.old.source) (S.left reader.new.source) (got step)
            × FitsGiven reader.old.inlet.shape step × (reader.new.inlet.received ≡ received_by step reader.old.inlet.received) }
        ensures bounded { reader.new.inlet.received ≤ reader.new.inlet.byte_limit }
        ensures same_shape { (reader.new.inlet.shape ≡ reader.old.inlet.shape) × (reader.new.inlet.byte_limit ≡ reader.old.inlet.byte_limit) }
        ensures cause { Blames (((outlook reader.old.inlet).is_over ≡ false) × (result ≡ LaneStep.End FeedEnd.ReadFault)) (S.faults reader.old.source) (S.faults reader.new.source) }
        ensures marked { S.mark reader.new.source ≡ S.mark reader.old.source }
        ensures memory { 1 ≤ size_of self.old.lane.shape.format → result ≢ LaneStep.Memory }
    {
        match &mut self.ends {
            TailEnds::Numbers(tail) => tail.take_from(rt, reader),
            TailEnds::Texts(tail) => tail.take_from(rt, reader),
        }
    }
}
