//! What a raiser and a looker know of the word, and the rule that each of their steps keeps.

use atomic_table::{Join, Play, Seat, Split, Table, TableRule};
use std::alloc::Global;

/// What a seat at the word knows. It exists in proofs alone: no value of it is made.
pub struct Knows {
    /// It is the raiser's.
    pub raises: bool,
    /// It has raised the word.
    pub raised: bool,
    /// It has seen the word raised.
    pub saw: bool,
    /// How many times it looked.
    pub looks: u64,
}

/// The rule: the word is 1 where it was raised, and 0 before.
pub struct Kept;

impl TableRule<(), Knows, ()> for Kept {
    ghost use Rattle.halt_word.specs.Rule.{IsKept, newborn};

    ghost holds = { λ about. IsKept };

    ghost first = { λ about. newborn };
}

/// The raiser's step that raises the word.
pub struct Raises;

impl Play<(), Knows> for Raises {
    ghost use Rattle.std.specs.Prelude.{◌≡◌};
    ghost use Rattle.halt_word.specs.Rule.{after_raising};

    ghost then = { λ step v n w. (w.1 ≡ v.1) × (w.0 ≡ after_raising v.0) };
}

/// The step that looks at the word.
pub struct Looks;

impl Play<(), Knows> for Looks {
    ghost use Rattle.std.specs.Prelude.{◌≡◌};
    ghost use Rattle.halt_word.specs.Rule.{HasLooked};

    ghost then = { λ step v n w. (w.1 ≡ v.1) × HasLooked v.0 n w.0 };
}

/// Makes the seat of one more looker beside the raiser's.
pub struct OneMore;

impl Split<Knows> for OneMore {
    ghost use Rattle.halt_word.specs.Rule.{unknowing};

    ghost left = { λ v. v };

    ghost right = { λ v. unknowing };
}

/// Makes one seat of the raiser's and a looker's.
pub struct Both;

impl Join<Knows> for Both {
    ghost use Rattle.halt_word.specs.Rule.{joined, unknowing};

    ghost both = { joined };

    ghost spent = { unknowing };
}

/// The word, under its rule.
pub type HaltWord = Table<(), Knows, (), Kept, Global>;

/// A seat at that word.
pub type HaltSeat = Seat<(), Knows>;
