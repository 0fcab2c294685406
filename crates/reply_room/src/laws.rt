//! How many bytes a reply has that isn't judged yet.

ghost use Rattle.std.specs.Prelude.{◌≡◌, ◌≤◌, ℕ, List, Option, length};
ghost use Rattle.reply_model.specs.Reply.{reply_in};
ghost use Rattle.reply_model.specs.declared.ReplyStep.TheVariants.{More};

/// A reply that wants more bytes has at most 266,369: 64 lines of 4,098 bytes with their line ends,
/// and 4,097 bytes of a line that hasn't ended (LSL `streamfeed`; both limits are this project's own).
pub fn unjudged_reply_is_short()
    ensures { (uid : Option (List ℕ)) (bytes : List ℕ) → reply_in uid bytes ≡ More → length bytes ≤ 266_369 }
{}
