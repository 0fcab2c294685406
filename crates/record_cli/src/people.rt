//! What is for people, on standard error: a sentence for a refusal, and the sign of life. It changes no
//! status, and fails silently.

use real_dock::{Pulse, RealDock};
use rec_base::Word;
use refusal_text::{Refusal, refusal_text, refused_line};
use std::alloc::{AllocError, Global};
use std::fs;
use std::io::{IsTerminal, Stdout, Write};

// The most bytes of a plan.
const PLAN_LIMIT: u64 = 1_048_576;

/// The sign of life of a command that may take long. There is none of `show` where its lines go to a
/// terminal, which show as much.
pub(crate) fn pulse_of(rt: &HostRuntime, words: &[Word]) -> Option<Pulse> {
    let work = match words.first()?.text() {
        "record" => "recording",
        "show" if !rt.stdout().is_terminal() => "reading",
        "check" => "checking",
        "repair" => "repairing",
        _ => return None,
    };
    Pulse::new(*rt, work)
}

/// Says the sentence for how a command ended, where there is something to say.
pub(crate) fn say_refusal(
    rt: &HostRuntime,
    words: &[Word],
    status: u8,
    dock: &RealDock<HostRuntime, Stdout>,
) {
    let plan_line = plan_line(rt, words, dock.last_fault());
    if let Ok(texts) = texts_of(rt.alloc(), words) {
        say(
            rt,
            &Refusal {
                words: &texts,
                status,
                line: dock.last_fault(),
                plan_line: plan_line.as_deref(),
                trouble: dock.trouble(),
            },
        );
    }
}

/// Says the sentence where there are no words, or no memory to begin with.
pub(crate) fn say_unread(rt: &HostRuntime, status: u8) {
    say(
        rt,
        &Refusal {
            words: &[],
            status,
            line: "",
            plan_line: None,
            trouble: None,
        },
    );
}

fn say(rt: &HostRuntime, refusal: &Refusal<'_>) {
    let alloc: Global = rt.alloc();
    if let Some(mut sentence) = refusal_text(alloc, refusal) {
        let _ = sentence.push('\n');
        let _ = rt.stderr().write_all(sentence.as_bytes());
    }
}

fn texts_of(alloc: Global, words: &[Word]) -> Result<Vec<&str>, AllocError> {
    let mut texts = Vec::new(alloc);
    for word in words {
        texts.push(word.text())?;
    }
    Ok(texts)
}

// The line of the plan that this one tells to be refused, where the plan can be read again.
fn plan_line(rt: &HostRuntime, words: &[Word], fault: &str) -> Option<String> {
    let number = usize::try_from(refused_line(fault)?).ok()?;
    let plan = words.get(1)?.text();
    let found = fs::metadata(rt, plan).ok()?;
    if !found.is_file() || found.len() > PLAN_LIMIT {
        return None;
    }
    let text = fs::read_to_string(rt, plan).ok()?;
    let line = text.split('\n').nth(number.checked_sub(1)?)?;
    String::from_str(rt.alloc(), line).ok()
}
