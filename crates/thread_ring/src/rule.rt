//! What the two ends of a ring know of it, and the rule that each of their steps keeps.

use crossbeam_queue::protocol::{Join, Lesson, Outcome, Protocol, Split};
use crossbeam_queue::{Pass, RuledArrayQueue};
use ring_model::Entry;
use std::collections::LinkedList;
use std::marker::{Brand, PhantomData};

/// What each value in a ring meets. Whoever pushes a value owes it, so whoever takes the value knows it
/// and tests nothing.
pub trait Terms<V> {
    /// The value meets these terms.
    ghost meets: { Self → V → Type 0 };
}

/// The terms of a ring of any values: each meets them.
#[derive(Clone, Copy, Debug)]
pub struct Any;

impl<V> Terms<V> for Any {
    ghost meets = { λ terms value. Unit {0} };
}

/// What a pass of the queue knows. It exists in proofs alone: no value of it is made.
pub struct Knows<V, T> {
    /// No end was made yet.
    pub is_new: bool,
    /// It is the tail's, which knows the puts, the drops and the level.
    pub pushes: bool,
    /// It is the head's, which knows what was taken.
    pub takes: bool,
    pub capacity: u64,
    pub terms: Option<T>,
    pub puts: LinkedList<V>,
    pub dropped: LinkedList<Entry<V>>,
    pub level: u64,
    pub taken: LinkedList<Entry<V>>,
}

/// The rule: the queue is that of a state that the ring reaches.
pub struct Kept;

impl<V, T: Terms<V>> Protocol<Entry<V>, Knows<V, T>> for Kept {
    ghost use Rattle.thread_ring.specs.Rule.{IsKept, newborn};

    ghost holds = { IsKept T.meets };

    ghost first = { newborn };
}

/// The tail's step that puts an entry.
pub struct Puts;

impl<V, T: Terms<V>> Outcome<Entry<V>, Knows<V, T>> for Puts {
    ghost use Rattle.thread_ring.specs.Rule.{HasPut};

    ghost then = { HasPut };
}

impl<V, T: Terms<V>> Lesson<Entry<V>, Knows<V, T>> for Puts {
    ghost use Rattle.thread_ring.specs.Rule.{TailSees};

    ghost fact = { TailSees };
}

/// The tail's step that drops the oldest entry.
pub struct Drops;

impl<V, T: Terms<V>> Outcome<Entry<V>, Knows<V, T>> for Drops {
    ghost use Rattle.thread_ring.specs.Rule.{HasDropped};

    ghost then = { HasDropped T.meets };
}

impl<V, T: Terms<V>> Lesson<Entry<V>, Knows<V, T>> for Drops {
    ghost use Rattle.thread_ring.specs.Rule.{TailSees};

    ghost fact = { TailSees };
}

/// The head's step that takes the oldest entry.
pub struct Takes;

impl<V, T: Terms<V>> Outcome<Entry<V>, Knows<V, T>> for Takes {
    ghost use Rattle.thread_ring.specs.Rule.{HasTaken};

    ghost then = { HasTaken T.meets };
}

impl<V, T: Terms<V>> Lesson<Entry<V>, Knows<V, T>> for Takes {
    ghost use Rattle.thread_ring.specs.Rule.{HeadSees};

    ghost fact = { HeadSees };
}

/// The step of both ends together that takes the oldest entry.
pub struct LastTakes;

impl<V, T: Terms<V>> Outcome<Entry<V>, Knows<V, T>> for LastTakes {
    ghost use Rattle.thread_ring.specs.Rule.{HasTakenLast};

    ghost then = { HasTakenLast T.meets };
}

impl<V, T: Terms<V>> Lesson<Entry<V>, Knows<V, T>> for LastTakes {
    ghost use Rattle.thread_ring.specs.Rule.{LastSees};

    ghost fact = { LastSees };
}

/// The capacity and the terms of the ring that is being made, for proofs alone. A split of a pass has no
/// arguments, so it names them by a type.
pub trait Room<T> {
    ghost use Rattle.std.specs.Prelude.{ℕ, Option};

    ghost capacity: { ℕ };

    ghost terms: { Option T };
}

// A call that makes a ring gives these their values by its own arguments.
impl<T> Room<T> for Brand {
    ghost use Rattle.std.specs.Prelude.{None};

    ghost capacity = { 0 };

    ghost terms = { None };
}

/// Makes the passes of both ends of the new ring's one pass.
pub struct Ends<C> {
    room: PhantomData<C>,
}

impl<V, T: Terms<V>, C: Room<T>> Split<Knows<V, T>> for Ends<C> {
    ghost use Rattle.ring_model.specs.Ring.{new_ring};
    ghost use Rattle.thread_ring.specs.Rule.{tail_knows, head_knows};

    ghost left = { λ v. tail_knows C.capacity C.terms new_ring };

    ghost right = { λ v. head_knows C.capacity C.terms new_ring };
}

/// Makes one pass of both ends'.
pub struct Both;

impl<V, T: Terms<V>> Join<Knows<V, T>> for Both {
    ghost use Rattle.thread_ring.specs.Rule.{joined, spent};

    ghost both = { joined };

    ghost spent = { spent };
}

/// The queue of a ring, under its rule.
pub type RingQueue<V, T> = RuledArrayQueue<Entry<V>, Knows<V, T>, Kept>;

/// A pass of that queue.
pub type RingPass<V, T> = Pass<Entry<V>, Knows<V, T>>;
