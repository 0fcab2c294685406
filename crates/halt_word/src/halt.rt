//! Makes a halt word and takes it apart.

ghost use Rattle.std.specs.Prelude.{◌≡◌, ◌≤◌, false, length, IfOk};
ghost use Rattle.halt_word.specs.Ends.{AreNew, NoneSaw};

use crate::ends::{Looker, Raiser};
use crate::looker_list::LookerList;
use crate::rule::HaltWord;
use crate::word_steps::{join_looker, look};
use rec_base::Memory;
use std::alloc::Global;
use std::sync::Arc;

// The raiser of a new word.
fn make_raiser(alloc: Global) -> Result<Raiser, Memory>
    ensures { IfOk result (λ r. r.raised ≡ false) }
{
    let (word, seat) = HaltWord::of_words(alloc, &[0], &())?;
    let word = Arc::new(alloc, word)?;
    Ok(Raiser { word, seat })
}

/// Makes a word that isn't raised, and answers its raiser and a full list of `lookers` lookers, 1 to 64,
/// none of which has looked. All memory of the word is taken here.
///
/// The limit is that of the feeds of one recording. `Memory` comes for want of memory alone.
pub fn make_halt(alloc: Global, lookers: usize) -> Result<(Raiser, LookerList), Memory>
    requires low { 1 ≤ lookers }
    requires high { lookers ≤ 64 }
    ensures raiser { IfOk result (λ r. r.0.raised ≡ false) }
    ensures list { IfOk result (λ r. (r.1.word ≡ r.0.word) × (r.1.room ≡ lookers) × (length r.1.lookers ≡ lookers)) }
    ensures new { IfOk result (λ r. AreNew r.1.lookers) }
{
    let mut raiser = make_raiser(alloc)?;
    let mut list = LookerList::new(alloc, &raiser, lookers)?;
    for _ in 0..lookers {
        let looker = raiser.one_looker()?;
        list.push(looker);
    }
    Ok((raiser, list))
}

/// Takes a word apart, once no other thread has its raiser, and answers exactly whether it was raised. Where
/// it was not, none of the lookers in the list has seen it raised; a list that is full has them all.
pub fn close_halt(raiser: Raiser, lookers: LookerList) -> bool
    requires { lookers.word ≡ raiser.word }
    ensures raised { result ≡ raiser.raised }
    ensures none { result ≡ false → NoneSaw lookers.lookers }
{
    let Raiser { word, mut seat } = raiser;
    for looker in lookers.lookers {
        let Looker {
            word: _,
            seat: other,
        } = looker;
        join_looker(&word, &mut seat, other);
    }
    look(&word, &mut seat)
}
