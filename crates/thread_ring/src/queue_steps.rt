//! The steps of either end, over the queue and the end's pass.

ghost use Rattle.std.specs.Prelude.{◌≡◌, ◌<◌, [], length, MatchOption, MatchResult};
ghost use Rattle.crossbeam_queue.specs.Passes.{view, IsPassOf, IsSamePass, ruled_capacity};
ghost use Rattle.ring_model.specs.Ring.{IsReached};
ghost use Rattle.thread_ring.specs.declared.rule.Knows.{Knows};
ghost use Rattle.thread_ring.specs.Rule.{IsCarried, IsTail, IsHead, HasPut, HasDropped, HasTaken, HasTakenLast, HeadSees, joined};
ghost use Rattle.thread_ring.specs.Ends.{state_of};

use crate::rule::{Both, Drops, LastTakes, Puts, RingPass, RingQueue, Takes, Terms};
use ring_model::Entry;
use std::sync::Wait;

// Puts the entry where there is room, and else hands it back; then the tail knows that its level is the
// capacity.
fn put_once<V: Drop, T: Terms<V>, R: Wait>(
    rt: &R,
    ring: &RingQueue<V, T>,
    pass: &mut RingPass<V, T>,
    entry: Entry<V>,
) -> Result<(), Entry<V>>
    requires pass { IsPassOf ring.now pass.old × IsTail (view pass.old) }
    requires size { ruled_capacity ring.now ≡ (view pass.old).capacity }
    requires place { entry.position ≡ length (view pass.old).puts }
    requires carried { IsCarried T.meets (view pass.old).terms entry }
    ensures pass { IsSamePass pass.old pass.new }
    ensures put { MatchResult result (λ _. HasPut (view pass.old) entry (view pass.new))
        (λ e. (e ≡ entry) × (view pass.new ≡ view pass.old) × ((view pass.old).level ≡ (view pass.old).capacity)) }
{
    ring.push_as::<Puts, R>(rt, pass, entry)
}

// Drops the oldest entry, if there is one.
fn drop_once<V: Drop, T: Terms<V>, R: Wait>(
    rt: &R,
    ring: &RingQueue<V, T>,
    pass: &mut RingPass<V, T>,
) -> Option<Entry<V>>
    requires pass { IsPassOf ring.now pass.old × IsTail (view pass.old) }
    requires full { (view pass.old).level ≡ (view pass.old).capacity }
    ensures pass { IsSamePass pass.old pass.new }
    ensures dropped { MatchOption result (view pass.new ≡ view pass.old) (λ e. HasDropped T.meets (view pass.old) e (view pass.new)) }
{
    ring.pop_as::<Drops, R>(rt, pass)
}

/// Puts the entry. Where the ring is full, the oldest entry is dropped first, and answered.
pub(crate) fn put<V: Drop, T: Terms<V>, R: Wait>(
    rt: &R,
    ring: &RingQueue<V, T>,
    pass: &mut RingPass<V, T>,
    entry: Entry<V>,
) -> Option<Entry<V>>
    requires pass { IsPassOf ring.now pass.old × IsTail (view pass.old) }
    requires size { (ruled_capacity ring.now ≡ (view pass.old).capacity) × (0 < ruled_capacity ring.now) }
    requires place { entry.position ≡ length (view pass.old).puts }
    requires carried { IsCarried T.meets (view pass.old).terms entry }
    ensures pass { IsSamePass pass.old pass.new }
    ensures put { MatchOption result (HasPut (view pass.old) entry (view pass.new))
        (λ e. (m : Knows V T) × HasDropped T.meets (view pass.old) e m × HasPut m entry (view pass.new)) }
{
    let mut entry = entry;
    for _ in rt.forever() {
        match put_once(rt, ring, pass, entry) {
            Ok(()) => return None,
            Err(back) => match drop_once(rt, ring, pass) {
                None => entry = back,
                Some(oldest) => match put_once(rt, ring, pass, back) {
                    Ok(()) => return Some(oldest),
                    Err(_) => unreachable!(),
                },
            },
        }
    }
    unreachable!()
}

/// Takes the oldest entry, by the head.
pub(crate) fn take_once<V: Drop, T: Terms<V>, R: Wait>(
    rt: &R,
    ring: &RingQueue<V, T>,
    pass: &mut RingPass<V, T>,
) -> Option<Entry<V>>
    requires pass { IsPassOf ring.now pass.old × IsHead (view pass.old) }
    ensures pass { IsSamePass pass.old pass.new }
    ensures taken { MatchOption result ((view pass.new ≡ view pass.old) × HeadSees (view pass.old) []) (λ e. HasTaken T.meets (view pass.old) e (view pass.new)) }
{
    ring.pop_as::<Takes, R>(rt, pass)
}

/// Makes one pass of both ends'.
pub(crate) fn to_last<V: Drop, T: Terms<V>>(
    ring: &RingQueue<V, T>,
    pass: &mut RingPass<V, T>,
    other: RingPass<V, T>,
)
    requires tail { IsPassOf ring.now pass.old × IsTail (view pass.old) }
    requires head { IsPassOf ring.now other × IsHead (view other) }
    ensures pass { IsSamePass pass.old pass.new }
    ensures view { view pass.new ≡ joined (view pass.old) (view other) }
    ensures reached { IsReached (view pass.new).capacity (state_of (view pass.new)) }
{
    ring.absorb::<Both>(pass, other);
    ring.learn_as::<LastTakes>(pass);
}

/// Takes the oldest entry, by the pass of both ends.
pub(crate) fn take_last<V: Drop, T: Terms<V>, R: Wait>(
    rt: &R,
    ring: &RingQueue<V, T>,
    pass: &mut RingPass<V, T>,
) -> Option<Entry<V>>
    requires pass { IsPassOf ring.now pass.old × IsTail (view pass.old) × IsHead (view pass.old) }
    ensures pass { IsSamePass pass.old pass.new }
    ensures taken { MatchOption result ((view pass.new ≡ view pass.old) × ((state_of (view pass.old)).queue ≡ [])) (λ e. HasTakenLast T.meets (view pass.old) e (view pass.new)) }
{
    ring.pop_as::<LastTakes, R>(rt, pass)
}
