//! A word that the thread that writes raises after a failed write, and that the thread of each feed looks
//! at, so that it stops.
//!
//! [`make_halt`] makes a word that isn't raised, its one [`Raiser`] and a [`LookerList`] with its
//! [`Looker`]s, each of which may go to a thread of its own. It promises that, however the threads run, a
//! looker sees the word only once it was raised, and from then on at each look; and that each call of
//! [`Looker::seen`] looks. Where [`close_halt`], which takes raiser and lookers back, answers that the word
//! wasn't raised, none of those lookers saw it. It doesn't promise how soon a looker sees what was raised.
//! All memory is taken as the word is made.
#![tactic(auto)]

mod ends;
mod halt;
mod looker_list;
mod rule;
mod word_steps;

pub use ends::{Looker, Raiser};
pub use halt::{close_halt, make_halt};
pub use looker_list::LookerList;

#[cfg(test)]
mod tests;
