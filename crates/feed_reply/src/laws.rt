//! What stays where more bytes follow.

ghost use Rattle.std.specs.Prelude.{◌≡◌, ◌++◌, ℕ, List, Option};
ghost use Rattle.reply_model.specs.Reply.{reply_in};
ghost use Rattle.feed_reply.specs.Scan.{IsScanOf};
ghost use Rattle.feed_reply.specs.declared.scan.ReplyScan.{ReplyScan};
ghost use Rattle.reply_model.specs.declared.ReplyStep.TheVariants.{More};

/// A whole reply and a refusal stay the same for every longer input: more bytes change nothing but
/// that more are wanted.
pub fn more_bytes_change_nothing()
    ensures { (uid : Option (List ℕ)) (b more : List ℕ)
        → (reply_in uid b ≡ More → ⊥)
        → reply_in uid (b ++ more) ≡ reply_in uid b }
{}

/// What a scan knows of some bytes it knows of every longer input.
pub fn more_bytes_keep_a_scan()
    ensures { (b more : List ℕ) (scan : ReplyScan)
        → IsScanOf b scan
        → IsScanOf (b ++ more) scan }
{}
