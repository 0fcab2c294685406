//! The two ends of a ring, and the one that they become.

ghost use Rattle.std.specs.Prelude.{◌≡◌, ◌<◌, ◌≤◌, ◌^◌, [], ◌∷◌, ◌++◌, length, slice_get, Some, IfOk, IfSome, MatchOption};
ghost use Rattle.std.specs.List.{AllByRecursion};
ghost use Rattle.ring_model.specs.Ring.{Take, RingStep, IsReached};
ghost use Rattle.thread_ring.specs.Rule.{Meets, IsCarried};
ghost use Rattle.thread_ring.specs.Ends.{AreFew, PutsAt, DropsAt, TakesAt, FindsNone};

use crate::queue_steps::{put, take_last, take_once, to_last};
use crate::rule::{Ends, RingPass, RingQueue, Room, Terms};
use rec_base::Memory;
use ring_model::Entry;
use std::alloc::Global;
use std::marker::{Brand, Model};
use std::sync::{Arc, Wait};

/// What a push did beside putting its value. This project's own.
#[derive(Debug, Drop)]
pub struct Pushed<V> {
    /// The entry that was dropped to make room, or none.
    pub dropped: Option<Entry<V>>,
}

/// The end of a ring that puts, which the thread of a feed owns. This project's own.
#[derive(Drop)]
pub struct Tail<V, T: Terms<V>> {
    ring: Arc<RingQueue<V, T>, Global>,
    pass: RingPass<V, T>,
    position: u64,
    drops: u64,
}

impl<V, T: Terms<V>> Model for Tail<V, T> {
    ghost use Rattle.std.specs.Prelude.{◌≡◌, ◌<◌, length};
    ghost use Rattle.std.specs.Arc.{arc_value};
    ghost use Rattle.crossbeam_queue.specs.Passes.{view as known, IsPassOf, ruled_capacity};
    ghost use Rattle.thread_ring.specs.Rule.{IsTail};
    ghost use Rattle.thread_ring.specs.Ends.{TailView, AreFew, tail_view};

    ghost Value = { TailView V T };

    ghost view = { λ t. tail_view (arc_value t.ring).table.shared.table_id (known t.pass) };

    ghost invariant = { λ t. IsPassOf (arc_value t.ring) t.pass × IsTail (known t.pass) × (ruled_capacity (arc_value t.ring) ≡ (known t.pass).capacity) × (0 < (known t.pass).capacity)
        × (t.position ≡ length (known t.pass).puts) × (t.drops ≡ length (known t.pass).dropped) × AreFew (known t.pass).capacity (known t.pass).puts (known t.pass).dropped };
}

/// The end of a ring that takes, which the thread that writes owns. This project's own.
#[derive(Drop)]
pub struct Head<V, T: Terms<V>> {
    ring: Arc<RingQueue<V, T>, Global>,
    pass: RingPass<V, T>,
}

impl<V, T: Terms<V>> Model for Head<V, T> {
    ghost use Rattle.std.specs.Arc.{arc_value};
    ghost use Rattle.crossbeam_queue.specs.Passes.{view as known, IsPassOf};
    ghost use Rattle.thread_ring.specs.Rule.{IsHead};
    ghost use Rattle.thread_ring.specs.Ends.{HeadView, head_view};

    ghost Value = { HeadView V T };

    ghost view = { λ h. head_view (arc_value h.ring).table.shared.table_id (known h.pass) };

    ghost invariant = { λ h. IsPassOf (arc_value h.ring) h.pass × IsHead (known h.pass) };
}

// Makes the ends, where the capacity and the terms have names.
fn open_ring<V: Drop, T: Terms<V>, C: Room<T>>(
    alloc: Global,
    capacity: usize,
    terms: &T,
) -> Result<(Tail<V, T>, Head<V, T>), Memory>
    requires some { 1 ≤ capacity }
    requires capacity { capacity ≡ C.capacity }
    requires terms { C.terms ≡ Some terms.now }
    ensures tail { IfOk result (λ r. (r.0.capacity ≡ capacity) × (r.0.terms ≡ Some terms.now) × (r.0.puts ≡ []) × (r.0.dropped ≡ []) × (r.0.level ≡ 0)) }
    ensures head { IfOk result (λ r. (r.1.ring ≡ r.0.ring) × (r.1.capacity ≡ capacity) × (r.1.terms ≡ Some terms.now) × (r.1.taken ≡ [])) }
{
    // Only proofs look at the terms.
    let _ = terms;
    let (queue, mut pass) = RingQueue::ruled(alloc, capacity)?;
    let other = queue.another::<Ends<C>>(&mut pass);
    let ring = Arc::new(alloc, queue)?;
    let theirs = Arc::try_clone(&ring)?;
    let tail = Tail {
        ring,
        pass,
        position: 0,
        drops: 0,
    };
    let head = Head {
        ring: theirs,
        pass: other,
    };
    Ok((tail, head))
}

/// Makes an empty ring of at most `capacity` entries, up to 1,048,576 of them, and answers its two ends,
/// each of which may go to a thread of its own. Each value that is put meets the terms. All memory of
/// the ring is taken here.
///
/// `Memory` comes for want of memory alone.
pub fn make_ring<V: Drop + Send, T: Terms<V>>(
    alloc: Global,
    capacity: usize,
    terms: &T,
) -> Result<(Tail<V, T>, Head<V, T>), Memory>
    requires low { 1 ≤ capacity }
    requires high { capacity ≤ 1_048_576 }
    ensures tail { IfOk result (λ r. (r.0.capacity ≡ capacity) × (r.0.terms ≡ Some terms.now) × (r.0.puts ≡ []) × (r.0.dropped ≡ []) × (r.0.level ≡ 0)) }
    ensures head { IfOk result (λ r. (r.1.ring ≡ r.0.ring) × (r.1.capacity ≡ capacity) × (r.1.terms ≡ Some terms.now) × (r.1.taken ≡ [])) }
{
    open_ring::<V, T, Brand>(alloc, capacity, terms)
}

impl<V: Drop, T: Terms<V>> Tail<V, T> {
    /// Puts a value at the position after the last one's. An entry is dropped only where the ring held
    /// `capacity` entries right after the push before this one. It is the oldest one at a moment of this
    /// call, it meets the ring's terms, and it is handed out. Whatever the head does meanwhile, at most
    /// one is dropped. It takes no memory. Where the head is just taking an entry, it waits for that.
    pub fn push<R: Wait>(&mut self, rt: &R, value: V) -> Pushed<V>
        requires room { length self.old.puts < 2 ^ 41 }
        requires meets { Meets T.meets self.old.terms value }
        ensures same { (self.new.ring ≡ self.old.ring) × (self.new.capacity ≡ self.old.capacity) × (self.new.terms ≡ self.old.terms) }
        ensures puts { self.new.puts ≡ self.old.puts ++ value ∷ [] }
        ensures dropped { MatchOption result.dropped (self.new.dropped ≡ self.old.dropped) (λ e. (self.old.level ≡ self.old.capacity) × (self.new.dropped ≡ self.old.dropped ++ e ∷ [])) }
        ensures few { AreFew self.new.capacity self.new.puts self.new.dropped }
        ensures carried { IfSome result.dropped (IsCarried T.meets self.old.terms) }
        ensures moments { MatchOption result.dropped (PutsAt self.old value self.new) (λ e. DropsAt self.old e value self.new) }
    {
        let entry = Entry {
            position: self.position,
            value,
        };
        let Some(oldest) = put(rt, &self.ring, &mut self.pass, entry) else {
            self.position += 1;
            return Pushed { dropped: None };
        };
        self.position += 1;
        self.drops += 1;
        Pushed {
            dropped: Some(oldest),
        }
    }
}

impl<V: Drop, T: Terms<V>> Head<V, T> {
    /// Takes the oldest entry out. `None` comes only where there was none at a moment of this call. What
    /// is taken meets the ring's terms, and its position is above those of all that was taken before. It
    /// takes no memory. Where the tail is just putting an entry, it may wait for that.
    pub fn take<R: Wait>(&mut self, rt: &R) -> Option<Entry<V>>
        ensures same { (self.new.ring ≡ self.old.ring) × (self.new.capacity ≡ self.old.capacity) × (self.new.terms ≡ self.old.terms) }
        ensures taken { MatchOption result (self.new.taken ≡ self.old.taken) (λ e. self.new.taken ≡ self.old.taken ++ e ∷ []) }
        ensures carried { IfSome result (IsCarried T.meets self.old.terms) }
        ensures above { IfSome result (λ e. AllByRecursion (λ f. f.position < e.position) self.old.taken) }
        ensures moment { MatchOption result (FindsNone self.old) (λ e. TakesAt self.old e self.new) }
    {
        take_once(rt, &self.ring, &mut self.pass)
    }
}

/// Both ends of a ring in one thread again, of which contracts see the whole state. This project's own.
#[derive(Drop)]
pub struct Last<V, T: Terms<V>> {
    ring: Arc<RingQueue<V, T>, Global>,
    pass: RingPass<V, T>,
    pushes: u64,
    drops: u64,
}

impl<V, T: Terms<V>> Model for Last<V, T> {
    ghost use Rattle.std.specs.Prelude.{◌≡◌, length};
    ghost use Rattle.std.specs.Arc.{arc_value};
    ghost use Rattle.crossbeam_queue.specs.Passes.{view as known, IsPassOf};
    ghost use Rattle.ring_model.specs.Ring.{IsReached};
    ghost use Rattle.thread_ring.specs.Rule.{IsTail, IsHead};
    ghost use Rattle.thread_ring.specs.Ends.{LastView, state_of};

    ghost Value = { LastView V T };

    ghost view = { λ l. record { capacity = (known l.pass).capacity; terms = (known l.pass).terms; state = state_of (known l.pass) } };

    ghost invariant = { λ l. IsPassOf (arc_value l.ring) l.pass × IsTail (known l.pass) × IsHead (known l.pass) × (l.pushes ≡ length (known l.pass).puts) × (l.drops ≡ length (known l.pass).dropped)
        × IsReached (known l.pass).capacity (state_of (known l.pass)) };
}

/// Joins the two ends of one ring, once no other thread has either. What is left in the ring is taken
/// from what it answers.
pub fn drain_last<V: Drop, T: Terms<V>>(tail: Tail<V, T>, head: Head<V, T>) -> Last<V, T>
    requires { tail.ring ≡ head.ring }
    ensures same { (result.capacity ≡ tail.capacity) × (result.terms ≡ tail.terms) }
    ensures state { (result.state.puts ≡ tail.puts) × (result.state.dropped ≡ tail.dropped) × (result.state.level ≡ tail.level) × (result.state.taken ≡ head.taken) }
    ensures reached { IsReached result.capacity result.state }
    ensures few { AreFew tail.capacity tail.puts tail.dropped }
{
    let Tail {
        ring,
        mut pass,
        position,
        drops,
    } = tail;
    let Head {
        ring: _,
        pass: other,
    } = head;
    to_last(&ring, &mut pass, other);
    Last {
        ring,
        pass,
        pushes: position,
        drops,
    }
}

impl<V: Drop, T: Terms<V>> Last<V, T> {
    /// Takes the oldest entry that is left. `None` comes exactly where none is left. What is taken meets
    /// the ring's terms, and its position is above those of all that was taken before. It takes no memory.
    pub fn take<R: Wait>(&mut self, rt: &R) -> Option<Entry<V>>
        ensures same { (self.new.capacity ≡ self.old.capacity) × (self.new.terms ≡ self.old.terms) }
        ensures oldest { result ≡ slice_get self.old.state.queue 0 }
        ensures step { MatchOption result (self.new.state ≡ self.old.state) (λ e. RingStep self.old.capacity self.old.state Take self.new.state) }
        ensures carried { IfSome result (IsCarried T.meets self.old.terms) }
        ensures above { IfSome result (λ e. AllByRecursion (λ f. f.position < e.position) self.old.state.taken) }
        ensures reached { IsReached self.new.capacity self.new.state }
    {
        take_last(rt, &self.ring, &mut self.pass)
    }

    /// How many values were pushed since the ring was made.
    pub fn pushes(&self) -> u64
        ensures { result ≡ length self.now.state.puts }
    {
        self.pushes
    }

    /// How many entries were dropped since the ring was made.
    pub fn drops(&self) -> u64
        ensures { result ≡ length self.now.state.dropped }
    {
        self.drops
    }
}
