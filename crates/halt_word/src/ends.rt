//! The end that raises the word and those that look at it.

ghost use Rattle.std.specs.Prelude.{◌≡◌, ◌+◌, true, false, IfOk};

use crate::rule::{HaltSeat, HaltWord};
use crate::word_steps::{look, raise_once, split_looker};
use rec_base::Memory;
use std::alloc::Global;
use std::marker::Model;
use std::sync::Arc;

/// The end that raises a halt word, which the thread that writes owns. This project's own.
#[derive(Drop)]
pub struct Raiser {
    pub(crate) word: Arc<HaltWord, Global>,
    pub(crate) seat: HaltSeat,
}

impl Model for Raiser {
    ghost use Rattle.std.specs.Prelude.{◌≡◌, true};
    ghost use Rattle.std.specs.Arc.{arc_value};
    ghost use Rattle.halt_word.specs.Rule.{IsSeatAt};
    ghost use Rattle.halt_word.specs.Ends.{RaiserView};

    ghost Value = { RaiserView };

    ghost view = { λ r. record { word = (arc_value r.word).shared.table_id; raised = r.seat.me.0.raised } };

    ghost invariant = { λ r. IsSeatAt (arc_value r.word).shared.table_id r.seat × (r.seat.me.0.raises ≡ true) };
}

/// An end that looks at a halt word, which the thread of a feed owns. This project's own.
#[derive(Drop)]
pub struct Looker {
    pub(crate) word: Arc<HaltWord, Global>,
    pub(crate) seat: HaltSeat,
}

impl Model for Looker {
    ghost use Rattle.std.specs.Arc.{arc_value};
    ghost use Rattle.halt_word.specs.Rule.{IsSeatAt};
    ghost use Rattle.halt_word.specs.Ends.{LookerView};

    ghost Value = { LookerView };

    ghost view = { λ l. record { word = (arc_value l.word).shared.table_id; saw = l.seat.me.0.saw; looks = l.seat.me.0.looks } };

    ghost invariant = { λ l. IsSeatAt (arc_value l.word).shared.table_id l.seat };
}

impl Raiser {
    /// Raises the word, for good. Raising it again changes nothing. It takes no memory, and never waits.
    pub fn raise(&mut self)
        ensures word { self.new.word ≡ self.old.word }
        ensures raised { self.new.raised ≡ true }
    {
        raise_once(&self.word, &mut self.seat);
    }

    // One more looker of this word, which hasn't looked.
    pub(crate) fn one_looker(&mut self) -> Result<Looker, Memory>
        ensures same { self.new ≡ self.old }
        ensures looker { IfOk result (λ l. (l.word ≡ self.old.word) × (l.saw ≡ false) × (l.looks ≡ 0)) }
    {
        let word = Arc::try_clone(&self.word)?;
        let seat = split_looker(&self.word, &mut self.seat);
        Ok(Looker { word, seat })
    }
}

impl Looker {
    /// Looks at the word once, and answers whether it is raised: true only where it was raised before this
    /// look, and false where this look found it down. Once it was true, it is true at each later call. It
    /// takes no memory, and never waits.
    pub fn seen(&mut self) -> bool
        ensures word { self.new.word ≡ self.old.word }
        ensures saw { result ≡ self.new.saw }
        ensures stays { self.old.saw ≡ true → result ≡ true }
        ensures looks { self.new.looks ≡ self.old.looks + 1 }
    {
        look(&self.word, &mut self.seat)
    }
}
