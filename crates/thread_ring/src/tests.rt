ghost use Rattle.std.specs.Prelude.{◌≡◌, [], Some, IfOk};

use super::*;
use rec_base::Memory;
use std::alloc::Global;
use std::sync::Wait;
use std::test::Fail;
use std::thread::join;

#[test]
fn a_ring_of_one_place_drops_its_oldest(rt: HostRuntime) -> Result<(), Fail> {
    let (mut tail, mut head) = make_ring::<u64, Any>(rt.alloc(), 1, &Any)?;
    let pushed = [tail.push(&rt, 7).dropped, tail.push(&rt, 8).dropped];
    let taken = [head.take(&rt), head.take(&rt)];
    let mut last = drain_last(tail, head);
    let left = last.take(&rt);
    assert_eq!(rt;
        format!(in rt.alloc();
            "{pushed:?} {taken:?} {left:?} {} {}",
            last.pushes(),
            last.drops()
        )?
        .as_str(),
        "[None, Some(Entry { position: 0, value: 7 })] [Some(Entry { position: 1, value: 8 }), None] None 2 1"
    );
    Ok(())
}

const PUSHES: usize = 1_000;

// Pushes PUSHES values, and tells the positions that were dropped.
fn push_all<R: Wait>(
    rt: &R,
    alloc: Global,
    terms: Any,
    mut tail: Tail<u64, Any>,
) -> Result<(Tail<u64, Any>, Vec<u64>), Memory>
    requires { (tail.puts ≡ []) × (tail.terms ≡ Some terms) }
    ensures { IfOk result (λ r. r.0.ring ≡ tail.ring) }
{
    let mut dropped = Vec::new(alloc);
    for value in 0..PUSHES {
        if let Some(entry) = tail.push(rt, value as u64).dropped {
            dropped.push(entry.position)?;
        }
    }
    Ok((tail, dropped))
}

// Takes as many times, and tells the positions that were taken.
fn take_all<R: Wait>(
    rt: &R,
    alloc: Global,
    mut head: Head<u64, Any>,
) -> Result<(Head<u64, Any>, Vec<u64>), Memory>
    ensures { IfOk result (λ r. r.0.ring ≡ head.ring) }
{
    let mut taken = Vec::new(alloc);
    for _ in 0..PUSHES {
        if let Some(entry) = head.take(rt) {
            taken.push(entry.position)?;
        }
    }
    Ok((head, taken))
}

#[test]
fn each_value_leaves_once_between_two_threads(rt: HostRuntime) -> Result<(), Fail> {
    let alloc = rt.alloc();
    let terms = Any;
    let (tail, head) = make_ring(alloc, 4, &terms)?;
    let (taken, pushed) = join(
        &rt,
        move ||
            ensures { IfOk result (λ r. r.0.ring ≡ head.ring) }
        { take_all(&rt, alloc, head) },
        move ||
            requires { (tail.puts ≡ []) × (tail.terms ≡ Some terms) }
            ensures { IfOk result (λ r. r.0.ring ≡ tail.ring) }
        { push_all(&rt, alloc, terms, tail) },
    );
    let (head, mut positions) = taken?;
    let (tail, dropped) = pushed?;
    let mut last = drain_last(tail, head);
    positions.extend_from_slice(&dropped)?;
    for _ in 0..4 {
        if let Some(entry) = last.take(&rt) {
            positions.push(entry.position)?;
        }
    }
    positions.sort()?;
    assert_eq!(rt; positions.len(), PUSHES);
    assert!(rt;
        positions
            .iter()
            .enumerate()
            .all(|(place, position)| place as u64 == *position)
    );
    assert!(rt; last.take(&rt).is_none());
    assert_eq!(rt; last.pushes(), PUSHES as u64);
    Ok(())
}
