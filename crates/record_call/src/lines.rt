//! The lines of a recording, and those of faults that have a number.

ghost use Rattle.std.specs.Prelude.{◌≡◌, ◌++◌, ◌∷◌, [], string_bytes, map, take, IfOk};
ghost use Rattle.record_call.specs.Lines.{feed_line, recorded_line, record_lines, plan_text, document_text, cost_text};

use crate::end::end_words;
use crate::run::Written;
use rec_base::Memory;
use record_run::FeedReport;
use std::alloc::Global;

// The line of a feed.
fn feed_line(alloc: Global, report: &FeedReport) -> Result<String, Memory>
    ensures { IfOk result (λ line. string_bytes line ≡ feed_line report.now) }
{
    let end = end_words(alloc, report.end)?;
    let FeedReport {
        id,
        received,
        kept,
        lost,
        ..
    } = *report;
    Ok(format!(in alloc; "feed {id} received {received} kept {kept} lost {lost} end {end}")?)
}

// The line of the file.
fn recorded_line(alloc: Global, bytes: u64, chunks: u64) -> Result<String, Memory>
    ensures { IfOk result (λ line. string_bytes line ≡ recorded_line bytes chunks) }
{
    Ok(format!(in alloc; "recorded bytes {bytes} chunks {chunks}")?)
}

/// All lines of a recording: one for each feed, in the order of the plan, and one for the file.
pub(crate) fn make_lines(alloc: Global, written: &Written) -> Result<Vec<String>, Memory>
    ensures { IfOk result (λ lines. map string_bytes lines.items ≡ record_lines written.now.reports written.now.bytes written.now.chunks) }
{
    let mut lines = Vec::new(alloc);
    for i in 0..written.reports.len() {
        let Some(report) = written.reports.get(i) else {
            return Err(Memory);
        };
        let line = feed_line(alloc, report)?;
        lines.push(line)?;
    }
    let line = recorded_line(alloc, written.bytes, written.chunks)?;
    lines.push(line)?;
    Ok(lines)
}

/// The line of a refused plan.
pub(crate) fn plan_line(alloc: Global, line: u64, why: u8) -> Result<String, Memory>
    ensures { IfOk result (λ text. string_bytes text ≡ plan_text line why) }
{
    Ok(format!(in alloc; "fault 3 line {line} why {why}")?)
}

/// The line of a feed whose header document is none.
pub(crate) fn document_line(alloc: Global, id: u32) -> Result<String, Memory>
    ensures { IfOk result (λ text. string_bytes text ≡ document_text id) }
{
    Ok(format!(in alloc; "fault 6 feed {id}")?)
}

/// The line of rings that cost too much.
pub(crate) fn cost_line(alloc: Global, cost: u64) -> Result<String, Memory>
    ensures { IfOk result (λ text. string_bytes text ≡ cost_text cost) }
{
    Ok(format!(in alloc; "fault 7 asked {cost}")?)
}
