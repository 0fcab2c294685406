//! The ends of feeds, as they are printed.

ghost use Rattle.std.specs.Prelude.{◌≡◌, string_bytes, IfOk};
ghost use Rattle.std.specs.List.{list_all};
ghost use Rattle.record_call.specs.Ends.{end_text, is_complete};

use feed_reply::why_number;
use rec_base::Memory;
use record_run::{FeedEnd, ReportList};
use std::alloc::Global;

/// The words for an end, with its place and its reason or byte.
pub(crate) fn end_words(alloc: Global, end: FeedEnd) -> Result<String, Memory>
    ensures { IfOk result (λ words. string_bytes words ≡ end_text end) }
{
    let words = match end {
        FeedEnd::Whole => format!(in alloc; "whole"),
        FeedEnd::Limit => format!(in alloc; "limit"),
        FeedEnd::TornReply => format!(in alloc; "torn-reply"),
        FeedEnd::ReplyRefused { at, why } => {
            let number = why_number(why);
            format!(in alloc; "reply-refused {at} {number}")
        }
        FeedEnd::TornSample(at) => format!(in alloc; "torn-sample {at}"),
        FeedEnd::BadTag { at, byte } => format!(in alloc; "bad-tag {at} {byte}"),
        FeedEnd::BadWidth { at, byte } => format!(in alloc; "bad-width {at} {byte}"),
        FeedEnd::SampleTooLong(at) => format!(in alloc; "sample-too-long {at}"),
        FeedEnd::ReadFault => format!(in alloc; "read-fault"),
        FeedEnd::ByteLimit => format!(in alloc; "byte-limit"),
    };
    Ok(words?)
}

/// Whether a feed came to its end, or to the number of samples that was asked for.
pub(crate) fn is_complete(end: FeedEnd) -> bool
    ensures { result ≡ is_complete end }
{
    match end {
        FeedEnd::Whole | FeedEnd::Limit => true,
        _ => false,
    }
}

/// Whether all feeds did.
pub(crate) fn are_complete(reports: &ReportList) -> bool
    ensures { result ≡ list_all (λ r. is_complete r.end) reports.now }
{
    for i in 0..reports.len() {
        let Some(report) = reports.get(i) else {
            return true;
        };
        if !is_complete(report.end) {
            return false;
        }
    }
    true
}
