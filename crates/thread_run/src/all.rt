//! The starts and the ends of all inlets.

ghost use Rattle.std.specs.Prelude.{◌≡◌, ◌≤◌, ℕ, List, [], length, slice_get, Some, vec_capacity};
ghost use Rattle.thread_run.specs.Work.{HasWorked, IsFresh};
ghost use Rattle.thread_run.specs.Owes.{Owes};
ghost use Rattle.thread_run.specs.declared.work.Work.{Work as WorkValue};
ghost use Rattle.thread_run.specs.declared.work.Worked.{Worked as WorkedValue};
ghost use Rattle.thread_run.specs.declared.started.Started.{Started as StartedValue};

use crate::started::{Started, finish_one, start_one};
use crate::work::{Work, Worked};
use rec_base::Source;
use std::rt::Clock;
use std::sync::Wait;
use std::sync::atomic::AtomicU64;
use std::thread::{Scope, Threads};

/// Starts each inlet. The room for the list is there, so no start is wanting for it.
pub(crate) fn start_all<'s, E, S: Source + Send + Drop + 's, R: Threads + Wait + Clock + Sync>(
    scope: &Scope<'s, E>,
    rt: &'s R,
    ended: &'s AtomicU64,
    works: Vec<Work<S>>,
    started: Vec<Started<S>>,
) -> Vec<Started<S>>
    requires fresh { (p : ℕ) (w : WorkValue _) → slice_get works.items p ≡ Some w → IsFresh w }
    requires none { started.items ≡ [] }
    requires room { length works.items ≤ vec_capacity started }
    ensures count { length result.items ≡ length works.items }
    ensures each { (p : ℕ) (w : WorkValue _) (s : StartedValue _) → slice_get works.items p ≡ Some w → slice_get result.items p ≡ Some s → Owes S.left S.faults S.mark w s }
{
    let mut works = works;
    let mut started = started;
    for _ in 0..works.len() {
        let work = works.remove(0);
        started.push_reserved(start_one(scope, rt, ended, work));
    }
    started
}

/// Joins each inlet. The room for the list is there.
pub(crate) fn finish_all<S: Source + Drop, R: Threads>(
    rt: &R,
    started: Vec<Started<S>>,
    worked: Vec<Worked<S>>,
) -> Vec<Worked<S>>
    requires none { worked.items ≡ [] }
    requires room { length started.items ≤ vec_capacity worked }
    ensures count { length result.items ≡ length started.items }
    ensures each { (works : List (WorkValue _)) → ((p : ℕ) (w : WorkValue _) (s : StartedValue _) → slice_get works p ≡ Some w → slice_get started.items p ≡ Some s → Owes S.left S.faults S.mark w s)
        → (p : ℕ) (w : WorkValue _) (r : WorkedValue _) → slice_get works p ≡ Some w → slice_get result.items p ≡ Some r → HasWorked S.left S.faults S.mark w r }
{
    let mut started = started;
    let mut worked = worked;
    for _ in 0..started.len() {
        let one = started.remove(0);
        worked.push_reserved(finish_one(rt, one));
    }
    worked
}
