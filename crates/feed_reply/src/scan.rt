//! What is known of the front of a reply whose bytes come in pieces.

ghost use Rattle.std.specs.Prelude.{◌≡◌, ℕ, List, length};
ghost use Rattle.std.specs.Option.{option_copied};
ghost use Rattle.reply_model.specs.Lines.{lines_in};
ghost use Rattle.reply_model.specs.Reply.{accepts_line, empty_line, reply_in};
ghost use Rattle.feed_reply.specs.Views.{IsWithin, IsUsedWithin};
ghost use Rattle.feed_reply.specs.Scan.{IsScanOf};

use crate::lines::line_length_from;
use crate::reply::read_agreed;
use crate::status::read_status;
use reply_model::{Refusal, Reply, ReplyStep, ReplyWhy};

// Where a complete line, before which so many stand, is accepted.
#[tactic(auto, unfolding(reply_model::specs::Reply::accepts_line))]
fn judge_line(number: usize, text: &[u8]) -> Result<(), ReplyWhy>
    ensures { result ≡ accepts_line number text.now }
{
    if text.len() > 4096 {
        return Err(ReplyWhy::LineTooLong);
    }
    if number == 0 {
        return read_status(text);
    }
    if number > 63 && !text.is_empty() {
        return Err(ReplyWhy::TooManyLines);
    }
    Ok(())
}

/// What is known of the front of an outlet's reply: which of its lines are complete and accepted, and how
/// many bytes of the next one were looked at. What is known stays for every longer input
/// (`more_bytes_keep_a_scan`). One who gets the bytes in pieces asks the same scan again over all
/// bytes at each piece, and each byte is looked at a fixed number of times, whatever the pieces, up
/// to the first answer other than `More`. This project's own.
#[derive(Clone, Copy, Debug)]
pub struct ReplyScan {
    // Where the first line begins that isn't complete.
    at: usize,
    // How many lines stand before it.
    number: usize,
    // At so many of its bytes no line end begins.
    seen: usize,
}

impl ReplyScan {
    /// Nothing is known yet, of whatever bytes.
    pub fn new() -> ReplyScan
        ensures { (b : List ℕ) → IsScanOf b result }
    {
        ReplyScan {
            at: 0,
            number: 0,
            seen: 0,
        }
    }

    // The place of the empty line, where it is there and no line is refused.
    fn find_empty_line(&mut self, bytes: &[u8]) -> Result<Option<usize>, Refusal>
        requires known { IsScanOf bytes.now self.old }
        ensures line { result ≡ empty_line 0 0 (lines_in bytes.now) }
        ensures within { IsWithin (length bytes.now) result }
        ensures knows { IsScanOf bytes.now self.new }
    {
        while let Some(size) = line_length_from(self.seen, &bytes[self.at..]) {
            let at = self.at;
            if let Err(why) = judge_line(self.number, &bytes[at..at + size]) {
                return Err(Refusal { at, why });
            }
            if size == 0 {
                return Ok(Some(at));
            }
            self.at += size + 2;
            self.number += 1;
            self.seen = 0;
        }
        let size = bytes.len() - self.at;
        // The last byte may be the first one of a line end.
        self.seen = size.saturating_sub(1);
        if size > 4097 {
            return Err(Refusal {
                at: self.at,
                why: ReplyWhy::LineTooLong,
            });
        }
        Ok(None)
    }

    /// What some bytes are as the front of a reply, as `read_reply` tells it, where so much is known of
    /// them or of the front of them. After it the same is known of these bytes, and more if there are
    /// more complete lines.
    #[tactic(auto, unfolding(reply_model::specs::Reply::reply_in))]
    pub fn read(&mut self, bytes: &[u8], uid: Option<&[u8]>) -> ReplyStep
        requires known { IsScanOf bytes.now self.old }
        ensures answer { result ≡ reply_in (option_copied uid.entry) bytes.now }
        ensures within { IsUsedWithin (length bytes.now) result }
        ensures knows { IsScanOf bytes.now self.new }
    {
        match self.find_empty_line(bytes) {
            Err(Refusal { at, why }) => ReplyStep::Refused { at, why },
            Ok(None) => ReplyStep::More,
            Ok(Some(empty)) => match read_agreed(uid, empty, bytes) {
                Ok(order) => ReplyStep::Done {
                    reply: Reply { order },
                    used: empty + 2,
                },
                Err(Refusal { at, why }) => ReplyStep::Refused { at, why },
            },
        }
    }
}
