//! The start and the end of an inlet's thread.

ghost use Rattle.thread_run.specs.Work.{HasWorked, IsFresh};
ghost use Rattle.thread_run.specs.Owes.{Owes};
ghost use Rattle.thread_run.specs.declared.work.Work.{Work as WorkValue};

use crate::work::{PutAll, Work, Worked, work_on};
use rec_base::Source;
use std::rt::Clock;
use std::snapshot::Snapshot;
use std::sync::Wait;
use std::sync::atomic::{AtomicU64, Ordering};
use std::thread::{PromisedHandle, Scope, Threads};

/// An inlet that was started in a thread of its own, or whose work was done here.
#[derive(Drop)]
pub(crate) enum Started<S: Source> {
    Running(PromisedHandle<Worked<S>, PutAll<S>>),
    Done(Worked<S>),
}

/// Starts an inlet in a thread of its own, which counts itself in `ended` once its feed has ended. Where
/// a thread is refused, its work is handed back and done here.
pub(crate) fn start_one<'s, E, S: Source + Send + Drop + 's, R: Threads + Wait + Clock + Sync>(
    scope: &Scope<'s, E>,
    rt: &'s R,
    ended: &'s AtomicU64,
    work: Work<S>,
) -> Started<S>
    requires fresh { IsFresh work }
    ensures { Owes S.left S.faults S.mark work result }
{
    let promise = PutAll {
        work: Snapshot::of(&work),
    };
    let run = move || -> Worked<S>
        requires { IsFresh work }
        ensures { HasWorked S.left S.faults S.mark work result }
    {
        let worked = work_on(rt, work);
        ended.fetch_add(1, Ordering::SeqCst);
        worked
    };
    match scope.spawn_with(promise, run) {
        Ok(child) => Started::Running(child),
        Err(refused) => Started::Done((refused.value)()),
    }
}

/// What an inlet hands back, once its thread has ended.
pub(crate) fn finish_one<S: Source + Drop, R: Threads>(rt: &R, started: Started<S>) -> Worked<S>
    ensures { (w : WorkValue _) → Owes S.left S.faults S.mark w started → HasWorked S.left S.faults S.mark w result }
{
    match started {
        Started::Running(child) => child.join(rt),
        Started::Done(worked) => worked,
    }
}
