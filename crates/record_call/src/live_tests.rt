ghost use Rattle.std.specs.Prelude.{◌≤◌};
ghost use Rattle.rec_base.specs.Causes.{Rose};

use crate::record_main;
use crate::test_dock::{FEED_FRONT, INT16_DOCUMENT, THREE_SAMPLES};
use rec_base::{Dock, Failed, Lines, Name, Sink, Source, Word};
use std::sync::atomic::{AtomicU64, Ordering};
use std::test::Fail;

// A plan without a mode, of two feeds.
const PLAN: &[u8] = b"ring 8\nfeed 1 doc h file a\nfeed 2 doc h file b\n";

// Whether a flag is raised within a bounded time.
fn is_raised(flag: &AtomicU64) -> bool {
    for _ in 0..1_073_741_824u64 {
        if flag.load(Ordering::SeqCst) == 1 {
            return true;
        }
    }
    false
}

// An input of two parts, given a byte at a time. A feed's first read raises its own flag, and waits inside
// the call for the other feed's, or fails.
#[derive(Drop)]
struct Waiting<'a> {
    front: &'static [u8],
    rest: &'static [u8],
    flags: Option<(&'a AtomicU64, &'a AtomicU64)>,
    faults: u64,
}

impl Source for Waiting<'_> {
    ghost use Rattle.std.specs.Prelude.{None};

    ghost left = { λ _. None };

    ghost faults = { λ s. s.faults };

    ghost mark = { λ _. tt };

    fn read(&mut self, buf: &mut [u8]) -> Result<usize, Failed> {
        if let Some((own, other)) = self.flags.take() {
            own.store(1, Ordering::SeqCst);
            if !is_raised(other) {
                return Err(fail(&mut self.faults));
            }
        }
        let [place, ..] = buf else {
            return Ok(0);
        };
        if let [first, rest @ ..] = self.front {
            *place = *first;
            self.front = rest;
            return Ok(1);
        }
        let [first, rest @ ..] = self.rest else {
            return Ok(0);
        };
        *place = *first;
        self.rest = rest;
        Ok(1)
    }
}

// Counts a failure.
fn fail(faults: &mut u64) -> Failed
    ensures counted { Rose faults.old faults.new }
    ensures later { faults.old ≤ faults.new }
{
    *faults = faults.saturating_add(1);
    Failed
}

// The plan, the document twice, and both feeds, in the order in which they are opened. It tells nothing, and
// counts the lines that are said of a feed which gave three samples, all of them kept.
#[derive(Drop)]
struct LiveDock<'a> {
    one: &'a AtomicU64,
    two: &'a AtomicU64,
    opened: u64,
    told: u64,
    open_faults: u64,
}

impl Sink for LiveDock<'_> {
    ghost use Rattle.std.specs.Prelude.{None};
    ghost use Rattle.rec_base.specs.Docked.{BesideSink};

    ghost held = { λ _. None };

    ghost write_faults = { λ _. 0 };

    ghost Rest = { BesideSink (Unit {0}) };

    ghost rest = { λ d. record { contents = None; marks = None; asked = None; target = None; printed = None; open_faults = d.open_faults; print_faults = 0 } };

    fn write(&mut self, bytes: &[u8]) -> Result<usize, Failed> {
        Ok(bytes.len())
    }
}

impl Lines for LiveDock<'_> {
    ghost use Rattle.std.specs.Prelude.{None};
    ghost use Rattle.rec_base.specs.Docked.{BesideLines};

    ghost printed = { λ _. None };

    ghost print_faults = { λ _. 0 };

    ghost Rest = { BesideLines (Unit {0}) };

    ghost rest = { λ d. record { contents = None; marks = None; asked = None; target = None; held = None; open_faults = d.open_faults; write_faults = 0 } };

    fn say(&mut self, line: &str) -> Result<(), Failed> {
        if line.ends_with(" received 3 kept 3 lost 0 end whole") {
            self.told = self.told.saturating_add(1);
        }
        Ok(())
    }
}

impl<'a> Dock for LiveDock<'a> {
    ghost use Rattle.std.specs.Prelude.{None, refl};
    ghost use Rattle.std.proofs.Common.{ap};
    ghost use Rattle.rec_base.specs.Docked.{BesideLines, BesideSink};

    type Source = Waiting<'a>;

    ghost contents = { λ _. None };

    ghost input_mark = { λ _. tt };

    ghost marks = { λ _. None };

    ghost asked = { λ _. None };

    ghost target = { λ _. None };

    ghost open_faults = { λ d. d.open_faults };

    fn open(&mut self, _name: &Name) -> Result<Waiting<'a>, Failed> {
        let (front, rest, flags) = match self.opened {
            0 => (PLAN, [].as_slice(), None),
            1 | 2 => (INT16_DOCUMENT, [].as_slice(), None),
            3 => (FEED_FRONT, THREE_SAMPLES, Some((self.one, self.two))),
            4 => (FEED_FRONT, THREE_SAMPLES, Some((self.two, self.one))),
            _ => return Err(fail(&mut self.open_faults)),
        };
        self.opened = self.opened.saturating_add(1);
        Ok(Waiting {
            front,
            rest,
            flags,
            faults: 0,
        })
    }

    fn create(&mut self, _name: &Word) -> Result<(), Failed> {
        Ok(())
    }

    ghost mark_keeps_input_mark = { λ s t h. refl };

    ghost write_keeps_contents = { λ d e h. refl };

    ghost write_keeps_marks = { λ d e h. refl };

    ghost write_keeps_asked = { λ d e h. refl };

    ghost write_keeps_target = { λ d e h. refl };

    ghost write_keeps_printed = { λ d e h. refl };

    ghost write_keeps_open_faults = { λ d e h. ap (λ (r : BesideSink (Unit {0})). r.open_faults) h };

    ghost write_keeps_print_faults = { λ d e h. refl };

    ghost say_keeps_contents = { λ d e h. refl };

    ghost say_keeps_marks = { λ d e h. refl };

    ghost say_keeps_asked = { λ d e h. refl };

    ghost say_keeps_target = { λ d e h. refl };

    ghost say_keeps_held = { λ d e h. refl };

    ghost say_keeps_open_faults = { λ d e h. ap (λ (r : BesideLines (Unit {0})). r.open_faults) h };

    ghost say_keeps_write_faults = { λ d e h. refl };
}

// By turns the first feed would wait for the second one in vain.
#[test]
fn a_plan_without_a_mode_reads_its_feeds_at_once(rt: HostRuntime) -> Result<(), Fail> {
    let alloc = rt.alloc();
    let (one, two) = (AtomicU64::new(0), AtomicU64::new(0));
    let mut dock = LiveDock {
        one: &one,
        two: &two,
        opened: 0,
        told: 0,
        open_faults: 0,
    };
    let mut words = Vec::new(alloc);
    for word in ["record", "p", "out"] {
        words.push(Word::from_bytes(alloc, word.as_bytes())?)?;
    }
    assert_eq!(rt; record_main(&rt, alloc, &words, &mut dock), 0);
    assert_eq!(rt; dock.told, 2);
    Ok(())
}
