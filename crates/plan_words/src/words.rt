//! The words of a line.

ghost use Rattle.std.specs.Prelude.{◌≡◌, IfOk, length};
ghost use Rattle.plan_model.specs.Text.{words_in};
ghost use Rattle.plan_model.specs.PlanLine.{word, has_word};

use rec_base::Memory;
use std::alloc::Global;
use std::marker::Model;

/// The words of a line, which aren't copied. Contracts see the list of them.
#[derive(Drop)]
pub(crate) struct LineWords<'a> {
    words: Vec<&'a str>,
}

impl<'a> Model for LineWords<'a> {
    ghost use Rattle.std.specs.Prelude.{List, ℕ, map};

    ghost Value = { List (List ℕ) };

    ghost view = { λ l. map (λ w. w.now) l.words.items };
}

impl<'a> LineWords<'a> {
    /// The words of a line.
    pub(crate) fn split(alloc: Global, line: &'a str) -> Result<LineWords<'a>, Memory>
        ensures { IfOk result (λ words. words ≡ words_in line.now) }
    {
        let mut words = Vec::new(alloc);
        let mut rest = line;
        while let Some((word, behind)) = rest.split_once(' ') {
            if !word.is_empty() {
                words.push(word)?;
            }
            rest = behind;
        }
        if !rest.is_empty() {
            words.push(rest)?;
        }
        Ok(LineWords { words })
    }

    pub(crate) fn len(&self) -> usize
        ensures { result ≡ length self.now }
    {
        self.words.len()
    }

    /// The word at a place, counted from 0, or nothing.
    pub(crate) fn get(&self, place: usize) -> &'a str
        ensures { result.now ≡ word place self.now }
    {
        match self.words.get(place) {
            Some(word) => word,
            None => "",
        }
    }

    /// Whether the word at a place is this one.
    pub(crate) fn has(&self, place: usize, text: &str) -> bool
        ensures { result ≡ has_word place text.now self.now }
    {
        self.get(place) == text
    }
}
