//! The lab recorder: `record PLAN OUT`, and `show`, `check`, `repair` and `drill`.
#![tactic(auto)]

ghost use Rattle.std.specs.Prelude.{◌≡◌, ◌≢◌};
ghost use Rattle.std.specs.IoError.{error_kind};
ghost use Rattle.std.specs.declared.io.ErrorKind.TheVariants.{InvalidData};

#[cfg(test)]
mod large_tests;
mod laws;
#[cfg(test)]
mod peer_tests;
mod people;
#[cfg(test)]
mod real_tests;
mod run;
mod words;

use people::{pulse_of, say_refusal, say_unread};
use real_dock::RealDock;
use rec_base::Word;
use run::run;
use std::alloc::Global;
use std::io;
use std::process::ExitCode;
use std::rt::Clock;
use std::sync::Wait;
use std::thread::Threads;
use words::command_words;

// The status where the words can't be had: a word is no text, or there is no memory.
fn unread_status(fault: &io::Error) -> u8
    ensures not_text { error_kind fault.now ≡ InvalidData → result ≡ 2 }
    ensures no_memory { error_kind fault.now ≢ InvalidData → result ≡ 9 }
{
    match fault.kind() {
        io::ErrorKind::InvalidData => 2,
        _ => 9,
    }
}

// Runs on the system's files, peers and standard output, and says a refusal for people.
fn run_here(
    threads: &(impl Threads + Wait + Clock + Sync),
    rt: &HostRuntime,
    words: &[Word],
) -> u8 {
    let alloc: Global = rt.alloc();
    let Ok(mut dock) = RealDock::new(alloc, *rt, rt.stdout(), pulse_of(rt, words)) else {
        return 9;
    };
    let status = run(threads, alloc, words, &mut dock);
    dock.note_reads();
    say_refusal(rt, words, status, &dock);
    status
}

fn main(rt: HostRuntime) -> ExitCode {
    let status = match command_words(&rt) {
        Ok(words) => run_here(&rt, &rt, &words),
        Err(fault) => {
            let status = unread_status(&fault);
            say_unread(&rt, status);
            status
        }
    };
    ExitCode::from(status)
}
