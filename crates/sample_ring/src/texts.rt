ghost use Rattle.std.specs.Prelude.{◌≡◌, ◌≤◌, ◌<◌, ◌+◌, ◌^◌, [], ◌∷◌, ◌++◌, drop, slice_get, if◌then◌else◌, IfOk};
ghost use Rattle.xdf_model.specs.Sample.{Sample as SampleValue};
ghost use Rattle.ring_model.specs.Ring.{RingState, RingRun};
ghost use Rattle.inlet_ring.specs.Lone.{is_full, with_room, push_events, take_events, StandsFor};

use inlet_ring::{Entry, LoneRing};
use rec_base::Memory;
use sample_values::Sample;
use std::alloc::Global;
use std::marker::Model;
use xdf_model::Stamp;

/// A ring of samples, and spare samples whose memory is used again. This project's own.
///
/// A sample is lent to be filled, and comes back by [`push`](TextRing::push) or
/// [`give`](TextRing::give). How many are spare changes nothing that contracts see: where none is, a
/// new one is lent.
#[derive(Drop)]
pub struct TextRing {
    ring: LoneRing<Sample>,
    spares: Vec<Sample>,
    alloc: Global,
}

impl Model for TextRing {
    ghost use Rattle.std.specs.Prelude.{◌≤◌, length};
    ghost use Rattle.xdf_model.specs.Sample.{Sample as SampleValue};
    ghost use Rattle.inlet_ring.specs.Lone.{Lone};

    ghost Value = { Lone SampleValue };

    ghost view = { λ r. r.ring };

    ghost invariant = { λ r. (length r.ring.queue ≤ r.ring.capacity) × (1 ≤ r.ring.capacity) };
}

// Keeps a sample as a spare one where the list has room for it without more memory, else lets it go.
#[inline]
fn keep(spares: &mut Vec<Sample>, sample: Sample) {
    if spares.len() < spares.capacity() {
        match spares.push(sample) {
            Ok(()) => {}
            Err(_) => unreachable!(),
        }
    }
}

impl TextRing {
    /// An empty ring of `capacity` entries, with room for `spares` spare samples and none of them yet.
    /// The memory of the ring and of the list is taken here, and that of the samples by whoever fills
    /// them.
    ///
    /// `Memory` comes for want of memory alone.
    pub fn new(alloc: Global, capacity: usize, spares: usize) -> Result<TextRing, Memory>
        requires low { 1 ≤ capacity }
        requires high { capacity ≤ 1_048_576 }
        requires spares { spares ≤ 1_048_578 }
        ensures { IfOk result (λ r. r ≡ record { queue = []; pushes = 0; capacity = capacity }) }
    {
        let ring = LoneRing::new(alloc, capacity)?;
        let spares = Vec::with_capacity(alloc, spares)?;
        Ok(TextRing {
            ring,
            spares,
            alloc,
        })
    }

    /// Lends a spare sample, which may still hold the stamp and the values of an earlier one, or else a
    /// new one without values. It takes no memory.
    #[inline]
    pub fn lend(&mut self) -> Sample
        ensures { self.new ≡ self.old }
    {
        match self.spares.pop() {
            Some(sample) => sample,
            None => Sample::new(self.alloc, Stamp::None),
        }
    }

    /// Keeps a sample as a spare one where there is room for it, else lets it go. It takes no memory.
    #[inline]
    pub fn give(&mut self, sample: Sample)
        ensures { self.new ≡ self.old }
    {
        keep(&mut self.spares, sample);
    }

    /// Puts a sample at the position after the last one's, and says how many that dropped, 0 or 1. The
    /// one that was dropped is kept or let go as by [`give`](TextRing::give). It takes no memory.
    #[inline]
    pub fn push(&mut self, sample: Sample) -> u64
        requires room { self.old.pushes < 2 ^ 41 }
        ensures dropped { result ≡ (if is_full self.old then 1 else 0) }
        ensures queue { self.new.queue ≡ with_room self.old ++ record { position = self.old.pushes; value = sample } ∷ [] }
        ensures pushes { self.new.pushes ≡ self.old.pushes + 1 }
        ensures capacity { self.new.capacity ≡ self.old.capacity }
        ensures steps { (s : RingState SampleValue) → StandsFor self.old s
            → (t : RingState SampleValue) × RingRun self.old.capacity s (push_events self.old sample) t × StandsFor self.new t }
    {
        match self.ring.push(sample) {
            Some(entry) => {
                keep(&mut self.spares, entry.value);
                1
            }
            None => 0,
        }
    }

    /// Takes the oldest entry out; `None` comes exactly where there is none. It takes no memory.
    #[inline]
    pub fn take(&mut self) -> Option<Entry<Sample>>
        ensures oldest { result ≡ slice_get self.old.queue 0 }
        ensures queue { self.new.queue ≡ drop 1 self.old.queue }
        ensures pushes { self.new.pushes ≡ self.old.pushes }
        ensures capacity { self.new.capacity ≡ self.old.capacity }
        ensures steps { (s : RingState SampleValue) → StandsFor self.old s
            → (t : RingState SampleValue) × RingRun self.old.capacity s (take_events self.old.queue) t × StandsFor self.new t }
    {
        self.ring.take()
    }
}
