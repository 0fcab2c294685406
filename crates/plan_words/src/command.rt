//! The command that the words of a command line ask for.

ghost use Rattle.std.specs.Prelude.{◌≡◌, IsTrue, MatchResult, Ok, Err, false};
ghost use Rattle.std.specs.Str.{bytes_eq};
ghost use Rattle.plan_model.specs.declared.top.Top.TheVariants as tops;
ghost use Rattle.plan_model.specs.Commands.{command_in, repair_file};
ghost use Rattle.plan_words.specs.Commands.{IsDrillNumber, command_view};

use crate::number::read_number;
use plan_model::Top;
use rec_base::Word;
use thiserror::Error;

/// A command with the names that it is given, which are borrowed from the words.
#[derive(Clone, Copy, Debug)]
pub enum Command<'w> {
    /// Record what a plan says, to an output.
    Record {
        plan: &'w Word,
        out: &'w Word,
    },
    /// Show the file at this path.
    Show(&'w Word),
    /// Check the file at this path.
    Check(&'w Word),
    /// Write what is whole of one file to another: at its front, or, by a search, behind damage too.
    Repair {
        search: bool,
        from: &'w Word,
        to: &'w Word,
    },
    /// Record and check feeds that are made from this number, 1 to 1,000,000.
    Drill(u64),
}

/// The words break a usage of this number.
#[derive(Clone, Copy, Debug, PartialEq, Eq, Error)]
#[error("usage {why}")]
pub struct Usage {
    pub why: u8,
}

// The most digits that a drill's number has, and the most that it may be.
const DRILL_DIGITS: usize = 7;

const DRILL_LIMIT: u64 = 1_000_000;

// The number that a word tells a drill.
fn drill_number(word: &Word) -> Option<u64>
    ensures { IsDrillNumber word.now result }
{
    let text = word.text();
    if text.len() > DRILL_DIGITS {
        return None;
    }
    read_number(text, DRILL_LIMIT)
}

// The command that records.
#[tactic(auto, unfolding(plan_model::specs::Commands::command_in))]
fn read_record(words: &[Word]) -> Result<Command<'_>, Usage>
    ensures { MatchResult result (λ command. command_in tops.Record words.now ≡ Ok (command_view command)) (λ usage. command_in tops.Record words.now ≡ Err usage.why) }
{
    let [name, names @ ..] = words else {
        return Err(Usage { why: 1 });
    };
    if name.bytes() != b"record".as_slice() {
        return Err(Usage { why: 2 });
    }
    let [plan, out] = names else {
        return Err(Usage { why: 3 });
    };
    if plan.bytes() == out.bytes() {
        return Err(Usage { why: 5 });
    }
    Ok(Command::Record { plan, out })
}

// A repair of one file into another.
fn read_names<'w>(search: bool, from: &'w Word, to: &'w Word) -> Result<Command<'w>, Usage>
    ensures { MatchResult result (λ command. (bytes_eq from.now to.now ≡ false) × (command_view command ≡ repair_file search from.now to.now)) (λ usage. IsTrue (bytes_eq from.now to.now) × (usage.why ≡ 5)) }
{
    if from.bytes() == to.bytes() {
        return Err(Usage { why: 5 });
    }
    Ok(Command::Repair { search, from, to })
}

// A command for files that are there.
#[tactic(auto, unfolding(plan_model::specs::Commands::command_in))]
fn read_file(words: &[Word]) -> Result<Command<'_>, Usage>
    ensures { MatchResult result (λ command. command_in tops.File words.now ≡ Ok (command_view command)) (λ usage. command_in tops.File words.now ≡ Err usage.why) }
{
    let [name, names @ ..] = words else {
        return Err(Usage { why: 1 });
    };
    if name.bytes() == b"show".as_slice() {
        let [file] = names else {
            return Err(Usage { why: 3 });
        };
        return Ok(Command::Show(file));
    }
    if name.bytes() == b"check".as_slice() {
        let [file] = names else {
            return Err(Usage { why: 3 });
        };
        return Ok(Command::Check(file));
    }
    if name.bytes() == b"repair".as_slice() {
        if let [_, from, to] = words {
            return read_names(false, from, to);
        }
        let [_, option, from, to] = words else {
            return Err(Usage { why: 3 });
        };
        if option.bytes() != b"--search".as_slice() {
            return Err(Usage { why: 3 });
        }
        return read_names(true, from, to);
    }
    if name.bytes() != b"drill".as_slice() {
        return Err(Usage { why: 2 });
    }
    let [word] = names else {
        return Err(Usage { why: 3 });
    };
    match drill_number(word) {
        Some(number) => Ok(Command::Drill(number)),
        None => Err(Usage { why: 4 }),
    }
}

/// The command that the words ask a call for, or the first usage that they break. It takes no memory.
/// This project's own.
///
/// 1: there is no word. 2: the first word is no command of the call, which is `record` for
/// [`Top::Record`], and `show`, `check`, `repair` or `drill` for [`Top::File`]. 3: the command has
/// another number of words, or what stands before a repair's two names isn't `--search`. 4: a drill's
/// word isn't 1 to 7 decimal digits that write a number from 1 to 1,000,000. 5: the output is the plan,
/// or the file that is to be repaired, byte for byte.
pub fn read_words(top: Top, words: &[Word]) -> Result<Command<'_>, Usage>
    ensures { MatchResult result (λ command. command_in top words.now ≡ Ok (command_view command)) (λ usage. command_in top words.now ≡ Err usage.why) }
{
    match top {
        Top::Record => read_record(words),
        Top::File => read_file(words),
    }
}
