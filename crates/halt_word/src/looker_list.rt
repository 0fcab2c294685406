//! A list of the lookers of one word.

ghost use Rattle.std.specs.Prelude.{◌≡◌, ◌≢◌, ◌<◌, ◌==◌, [], ◌∷◌, ◌++◌, length, IfOk, IfSome, MatchOption};

use crate::ends::{Looker, Raiser};
use crate::rule::HaltWord;
use rec_base::Memory;
use std::alloc::Global;
use std::marker::Model;
use std::sync::Arc;

/// The lookers of one halt word, until each goes to its thread and once it is back. The one that came last
/// goes first. This project's own.
#[derive(Drop)]
pub struct LookerList {
    word: Arc<HaltWord, Global>,
    room: usize,
    pub(crate) lookers: Vec<Looker>,
}

impl Model for LookerList {
    ghost use Rattle.std.specs.Prelude.{◌≤◌, length, vec_capacity};
    ghost use Rattle.std.specs.Arc.{arc_value};
    ghost use Rattle.halt_word.specs.Ends.{AreOf, LookerListView};

    ghost Value = { LookerListView };

    ghost view = { λ l. record { word = (arc_value l.word).shared.table_id; room = l.room; lookers = l.lookers.items } };

    ghost invariant = { λ l. AreOf (arc_value l.word).shared.table_id l.lookers.items × (length l.lookers.items ≤ l.room) × (l.room ≤ vec_capacity l.lookers) };
}

impl LookerList {
    // An empty list for so many lookers of the raiser's word.
    pub(crate) fn new(alloc: Global, raiser: &Raiser, room: usize) -> Result<LookerList, Memory>
        ensures { IfOk result (λ l. (l.word ≡ raiser.now.word) × (l.room ≡ room) × (l.lookers ≡ [])) }
    {
        let word = Arc::try_clone(&raiser.word)?;
        let lookers = Vec::with_capacity(alloc, room)?;
        Ok(LookerList {
            word,
            room,
            lookers,
        })
    }

    /// How many lookers are in the list.
    pub fn len(&self) -> usize
        ensures { result ≡ length self.now.lookers }
    {
        self.lookers.len()
    }

    /// Whether the list has no looker.
    pub fn is_empty(&self) -> bool
        ensures { result ≡ (length self.now.lookers == 0) }
    {
        self.lookers.is_empty()
    }

    /// Whether the list has as many lookers as were made, so that none is out.
    pub fn is_full(&self) -> bool
        ensures { result ≡ (length self.now.lookers == self.now.room) }
    {
        self.lookers.len() == self.room
    }

    /// Puts a looker of this word behind the others. It takes no memory.
    pub fn push(&mut self, looker: Looker)
        requires word { looker.word ≡ self.old.word }
        requires room { length self.old.lookers < self.old.room }
        ensures same { (self.new.word ≡ self.old.word) × (self.new.room ≡ self.old.room) }
        ensures lookers { self.new.lookers ≡ self.old.lookers ++ looker ∷ [] }
    {
        self.lookers.push_reserved(looker);
    }

    /// Takes the looker out that was put last. `None` comes exactly where the list is empty. It takes no
    /// memory.
    pub fn pop(&mut self) -> Option<Looker>
        ensures same { (self.new.word ≡ self.old.word) × (self.new.room ≡ self.old.room) }
        ensures lookers { MatchOption result ((self.old.lookers ≡ []) × (self.new.lookers ≡ [])) (λ l. self.old.lookers ≡ self.new.lookers ++ l ∷ []) }
        ensures word { IfSome result (λ l. l.word ≡ self.old.word) }
    {
        self.lookers.pop()
    }
}
