//! A line of a plan by itself.

ghost use Rattle.std.specs.Prelude.{◌≡◌, ◌==◌, ◌+◌, ◌<◌, IsTrue, length};
ghost use Rattle.plan_model.specs.PlanLine.{word, number, is_feed, is_tcp, has_limit, from_of, limit_of, feed_of};
ghost use Rattle.plan_model.specs.Plan.{mode_of};
ghost use Rattle.plan_words.specs.Read.{Reads, setting_refusal, mode_refusal, count_refusal, form_refusal, form_of, port_refusal, limit_refusal, own_refusal, line_of};

use crate::fault::LineFault;
use crate::number::read_number;
use crate::words::LineWords;
use plan_model::{FeedFrom, FeedLine, Mode, PlanWhy};
use rec_base::Word;
use std::alloc::Global;

const MOST_RING: u64 = 1_048_576;

const MOST_BATCH: u64 = 65_536;

const MOST_ID: u64 = 65_535;

const MOST_PORT: u64 = 65_535;

const MOST_SAMPLES: u64 = 1_099_511_627_776;

/// What a line says.
#[derive(Drop)]
pub(crate) enum PlanLine {
    Ring(u64),
    Batch(u64),
    Mode(Mode),
    Feed(FeedLine),
}

/// Where a feed comes from, and whether it has a limit.
#[derive(Clone, Copy)]
pub(crate) struct FeedForm {
    tcp: bool,
    limited: bool,
}

// A number for the whole plan.
fn read_setting(words: &LineWords, most: u64) -> Result<u64, LineFault>
    ensures { Reads result (setting_refusal most words.now) (number (word 1 words.now)) }
{
    if words.len() != 2 {
        return Err(LineFault::Refused(PlanWhy::WrongCount));
    }
    match read_number(words.get(1), most) {
        Some(n) => Ok(n),
        None => Err(LineFault::Refused(PlanWhy::BadNumber)),
    }
}

fn read_mode(words: &LineWords) -> Result<Mode, LineFault>
    ensures { Reads result (mode_refusal words.now) (mode_of (word 1 words.now)) }
{
    if words.len() != 2 {
        return Err(LineFault::Refused(PlanWhy::WrongCount));
    }
    if words.has(1, "turns") {
        return Ok(Mode::Turns);
    }
    if words.has(1, "threads") {
        return Ok(Mode::Threads);
    }
    Err(LineFault::Refused(PlanWhy::BadKind))
}

// Whether a feed has a limit, whose form without one has so many words.
fn read_count(words: &LineWords, plain: usize) -> Result<bool, LineFault>
    requires { plain < 10 }
    ensures { Reads result (count_refusal plain words.now) (length words.now == plain + 2) }
{
    let limited = words.len() == plain + 2;
    if words.len() != plain && !limited {
        return Err(LineFault::Refused(PlanWhy::WrongCount));
    }
    if limited && !words.has(plain, "limit") {
        return Err(LineFault::Refused(PlanWhy::BadKind));
    }
    Ok(limited)
}

fn read_form(words: &LineWords) -> Result<FeedForm, LineFault>
    requires { IsTrue (is_feed words.now) }
    ensures { Reads result (form_refusal words.now) (form_of words.now) }
{
    if words.len() < 6 {
        return Err(LineFault::Refused(PlanWhy::WrongCount));
    }
    if !words.has(2, "doc") {
        return Err(LineFault::Refused(PlanWhy::BadKind));
    }
    if words.has(4, "file") {
        let limited = read_count(words, 6)?;
        return Ok(FeedForm {
            tcp: false,
            limited,
        });
    }
    if words.has(4, "tcp") {
        let limited = read_count(words, 8)?;
        return Ok(FeedForm { tcp: true, limited });
    }
    Err(LineFault::Refused(PlanWhy::BadKind))
}

fn read_from(alloc: Global, words: &LineWords, tcp: bool) -> Result<FeedFrom, LineFault>
    requires { tcp ≡ is_tcp words.now }
    ensures { Reads result (port_refusal words.now) (from_of words.now) }
{
    if !tcp {
        let path = Word::from_bytes(alloc, words.get(5).as_bytes())?;
        return Ok(FeedFrom::File(path));
    }
    let Some(port) = read_number(words.get(6), MOST_PORT) else {
        return Err(LineFault::Refused(PlanWhy::BadNumber));
    };
    let host = Word::from_bytes(alloc, words.get(5).as_bytes())?;
    let uid = Word::from_bytes(alloc, words.get(7).as_bytes())?;
    Ok(FeedFrom::Tcp {
        host,
        port: port as u16,
        uid,
    })
}

fn read_limit(words: &LineWords, limited: bool) -> Result<Option<u64>, LineFault>
    requires { limited ≡ has_limit words.now }
    ensures { Reads result (limit_refusal words.now) (limit_of words.now) }
{
    if !limited {
        return Ok(None);
    }
    match read_number(words.get(words.len() - 1), MOST_SAMPLES) {
        Some(limit) => Ok(Some(limit)),
        None => Err(LineFault::Refused(PlanWhy::BadNumber)),
    }
}

#[tactic(auto, unfolding(plan_model::specs::PlanLine::feed_of))]
fn read_feed(alloc: Global, words: &LineWords) -> Result<FeedLine, LineFault>
    requires { IsTrue (is_feed words.now) }
    ensures { Reads result (own_refusal words.now) (feed_of words.now) }
{
    let form = read_form(words)?;
    let Some(id) = read_number(words.get(1), MOST_ID) else {
        return Err(LineFault::Refused(PlanWhy::BadNumber));
    };
    let from = read_from(alloc, words, form.tcp)?;
    let limit = read_limit(words, form.limited)?;
    let doc = Word::from_bytes(alloc, words.get(3).as_bytes())?;
    Ok(FeedLine {
        id: id as u32,
        doc,
        from,
        limit,
    })
}

/// What the words of a line say, or the first reason against them by themselves.
pub(crate) fn read_line(alloc: Global, words: &LineWords) -> Result<PlanLine, LineFault>
    ensures { Reads result (own_refusal words.now) (line_of words.now) }
{
    if words.has(0, "ring") {
        let n = read_setting(words, MOST_RING)?;
        return Ok(PlanLine::Ring(n));
    }
    if words.has(0, "batch") {
        let n = read_setting(words, MOST_BATCH)?;
        return Ok(PlanLine::Batch(n));
    }
    if words.has(0, "mode") {
        let mode = read_mode(words)?;
        return Ok(PlanLine::Mode(mode));
    }
    if words.has(0, "feed") {
        let feed = read_feed(alloc, words)?;
        return Ok(PlanLine::Feed(feed));
    }
    Err(LineFault::Refused(PlanWhy::UnknownWord))
}
