//! The four kinds of step at the word, over the word and a seat at it.

ghost use Rattle.std.specs.Prelude.{◌≡◌, true};
ghost use Rattle.halt_word.specs.Rule.{HasLooked, IsSeatAt, after_raising, joined, unknowing, word_for};

use crate::rule::{Both, HaltSeat, HaltWord, Looks, OneMore, Raises};

/// Raises the word, by the raiser's seat.
pub(crate) fn raise_once(word: &HaltWord, seat: &mut HaltSeat)
    requires seat { IsSeatAt word.now.shared.table_id seat.old }
    requires raiser { seat.old.me.0.raises ≡ true }
    ensures seat { IsSeatAt word.now.shared.table_id seat.new }
    ensures raised { seat.new.me.0 ≡ after_raising seat.old.me.0 }
{
    word.shared.store::<Raises>(seat, 0, 1);
}

/// Looks at the word, and answers whether it is raised.
pub(crate) fn look(word: &HaltWord, seat: &mut HaltSeat) -> bool
    requires seat { IsSeatAt word.now.shared.table_id seat.old }
    ensures seat { IsSeatAt word.now.shared.table_id seat.new }
    ensures looked { HasLooked seat.old.me.0 (word_for result) seat.new.me.0 }
{
    word.shared.load::<Looks>(seat, 0) != 0
}

/// Makes the seat of one more looker, which knows nothing.
pub(crate) fn split_looker(word: &HaltWord, seat: &mut HaltSeat) -> HaltSeat
    requires seat { IsSeatAt word.now.shared.table_id seat.old }
    ensures seat { IsSeatAt word.now.shared.table_id seat.new }
    ensures same { seat.new.me.0 ≡ seat.old.me.0 }
    ensures looker { IsSeatAt word.now.shared.table_id result × (result.me.0 ≡ unknowing) }
{
    word.shared.split_seat::<OneMore>(seat)
}

/// Takes the seat of a looker in.
pub(crate) fn join_looker(word: &HaltWord, seat: &mut HaltSeat, looker: HaltSeat)
    requires seat { IsSeatAt word.now.shared.table_id seat.old }
    requires looker { IsSeatAt word.now.shared.table_id looker }
    ensures seat { IsSeatAt word.now.shared.table_id seat.new }
    ensures joined { seat.new.me.0 ≡ joined seat.old.me.0 looker.me.0 }
{
    word.shared.join_seat::<Both>(seat, looker);
}
