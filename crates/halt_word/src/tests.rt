ghost use Rattle.std.specs.Prelude.{◌≡◌};

use super::*;
use std::test::Fail;
use std::thread::join;

#[test]
fn a_word_is_seen_once_it_is_raised(rt: HostRuntime) -> Result<(), Fail> {
    let (mut raiser, mut lookers) = make_halt(rt.alloc(), 1)?;
    assert!(rt; lookers.is_full());
    let mut looker = lookers.pop().expect(&rt, "one was made");
    assert!(rt; lookers.is_empty() && !looker.seen());
    raiser.raise();
    assert!(rt; looker.seen() && looker.seen());
    lookers.push(looker);
    assert_eq!(rt; lookers.len(), 1);
    assert!(rt; close_halt(raiser, lookers));
    Ok(())
}

#[test]
fn a_word_that_was_not_raised_closes_so(rt: HostRuntime) -> Result<(), Fail> {
    let (raiser, lookers) = make_halt(rt.alloc(), 64)?;
    assert_eq!(rt; lookers.len(), 64);
    assert!(rt; !close_halt(raiser, lookers));
    Ok(())
}

#[test]
fn what_one_thread_raised_another_sees(rt: HostRuntime) -> Result<(), Fail> {
    let (mut raiser, mut lookers) = make_halt(rt.alloc(), 1)?;
    let mut looker = lookers.pop().expect(&rt, "one was made");
    let (raiser, mut looker) = join(
        &rt,
        move ||
            ensures { result.word ≡ raiser.word }
        {
            raiser.raise();
            raiser
        },
        move ||
            ensures { result.word ≡ looker.word }
        {
            // It may look before the other raises.
            looker.seen();
            looker
        },
    );
    assert!(rt; looker.seen());
    lookers.push(looker);
    assert!(rt; close_halt(raiser, lookers));
    Ok(())
}
