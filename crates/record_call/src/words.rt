//! The words of the command.

ghost use Rattle.std.specs.Prelude.{◌≡◌, MatchResult, Ok, Err, IfErr, IsTrue};
ghost use Rattle.plan_model.specs.declared.top.Top.TheVariants.{Record as top_record};
ghost use Rattle.plan_model.specs.Commands.{command_in, record_plan};
ghost use Rattle.dock_calls.specs.Said.{is_usage};

use plan_words::{Command, Top, Usage, read_words};
use rec_base::Word;

/// The names of the plan and of the output, or the first usage that the words break.
pub(crate) fn read_names(words: &[Word]) -> Result<(&Word, &Word), Usage>
    ensures names { MatchResult result (λ names. command_in top_record words.now ≡ Ok (record_plan names.0.now names.1.now)) (λ usage. command_in top_record words.now ≡ Err usage.why) }
    ensures known { IfErr result (λ usage. IsTrue (is_usage usage.why)) }
{
    let command = match read_words(Top::Record, words) {
        Ok(command) => command,
        Err(usage) => return Err(usage),
    };
    match command {
        Command::Record { plan, out } => Ok((plan, out)),
        // no other command is one of this call
        _ => Err(Usage { why: 2 }),
    }
}
