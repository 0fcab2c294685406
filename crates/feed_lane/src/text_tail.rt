//! The end of a lane of texts that puts.

ghost use Rattle.std.specs.Prelude.{◌≡◌, ◌≤◌, ◌<◌, ◌^◌, false, length};
ghost use Rattle.rec_base.specs.Causes.{Blames};
ghost use Rattle.reading_model.specs.Outlook.{Answered};
ghost use Rattle.inlet_model.specs.Inlet.{feed_kind};
ghost use Rattle.feed_samples.specs.declared.step.FeedStep.{FeedStep as StepValue};
ghost use Rattle.feed_samples.specs.Inlet.{FitsGiven, got, outlook, received_by};
ghost use Rattle.feed_lane.specs.Lanes.{IsPutTo};

use crate::step::LaneStep;
use crate::terms::FittingSamples;
use feed_samples::{FeedEnd, FeedReader, FeedStep};
use rec_base::Source;
use sample_values::{Sample, Shape};
use std::marker::Model;
use std::sync::Wait;
use thread_ring::Tail;

/// The tail of the ring.
#[derive(Drop)]
pub(crate) struct TextTail {
    pub(crate) shape: Shape,
    pub(crate) tail: Tail<Sample, FittingSamples>,
}

impl Model for TextTail {
    ghost use Rattle.std.specs.Prelude.{◌≡◌};
    ghost use Rattle.xdf_model.specs.Sample.{size_of};
    ghost use Rattle.feed_lane.specs.Lanes.{TailView};
    ghost use Rattle.feed_lane.specs.Kinds.{text_tail, text_terms};

    ghost Value = { TailView };

    ghost view = { λ t. text_tail t.shape t.tail };

    ghost invariant = { λ t. (size_of t.shape.format ≡ 0) × (t.tail.terms ≡ text_terms t.shape) };
}

impl TextTail {
    /// As [`crate::LaneTail::take_from`].
    pub(crate) fn take_from<S: Source, R: Wait>(
        &mut self,
        rt: &R,
        reader: &mut FeedReader<S>,
    ) -> LaneStep
        requires shape { self.old.lane.shape ≡ reader.old.inlet.shape }
        requires room { length self.old.puts < 2 ^ 41 }
        ensures same { self.new.lane ≡ self.old.lane }
        ensures put { (step : StepValue) × IsPutTo self.old self.new step result
            × Answered feed_kind (outlook reader.old.inlet) (outlook reader.new.inlet) (S.left reader.old.source) (S.left reader.new.source) (got step)
            × FitsGiven reader.old.inlet.shape step × (reader.new.inlet.received ≡ received_by step reader.old.inlet.received) }
        ensures bounded { reader.new.inlet.received ≤ reader.new.inlet.byte_limit }
        ensures same_shape { (reader.new.inlet.shape ≡ reader.old.inlet.shape) × (reader.new.inlet.byte_limit ≡ reader.old.inlet.byte_limit) }
        ensures cause { Blames (((outlook reader.old.inlet).is_over ≡ false) × (result ≡ LaneStep.End FeedEnd.ReadFault)) (S.faults reader.old.source) (S.faults reader.new.source) }
        ensures marked { S.mark reader.new.source ≡ S.mark reader.old.source }
    {
        match reader.next() {
            FeedStep::Sample(sample) => {
                let _ = self.tail.push(rt, sample);
                LaneStep::Sample
            }
            FeedStep::End(end) => LaneStep::End(end),
            FeedStep::Memory => LaneStep::Memory,
        }
    }
}
