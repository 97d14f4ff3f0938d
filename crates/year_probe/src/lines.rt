//! Lines of commands.
ghost use Rattle.std.specs.Prelude.{IfOk};
ghost use Rattle.wish_list.specs.Asked.{IsRead};

use anyhow::{Context, Result};
use memento_time::Original;
use std::alloc::Global;
use timemap_reader::read_original;
use wish_list::AskedOriginal;

/// The words of a line: the place of a run, a word that says what is called, and numbers.
#[derive(Debug, Drop)]
pub(crate) struct Line<'a> {
    words: Vec<&'a str>,
}

impl<'a> Line<'a> {
    pub(crate) fn new(alloc: Global, text: &'a str) -> Result<Line<'a>> {
        let mut words = Vec::new(alloc);
        for word in text.split_whitespace() {
            words.push(word)?;
        }
        Ok(Line { words })
    }

    /// What is called, or nothing.
    pub(crate) fn word(&self) -> &str {
        match self.words.get(1) {
            Some(word) => word,
            None => "",
        }
    }

    /// The number at this place of the line.
    pub(crate) fn number(&self, place: usize) -> Result<u64> {
        let word = self.words.get(place).context("a number is missing")?;
        word.parse::<u64>().context("no number")
    }

    /// The number at this place, as a place or a count.
    pub(crate) fn place(&self, place: usize) -> Result<usize> {
        Ok(self.number(place)? as usize)
    }

    /// Whether the number at this place is 1.
    pub(crate) fn flag(&self, place: usize) -> Result<bool> {
        Ok(self.number(place)? == 1)
    }

    /// How many words there are.
    pub(crate) fn len(&self) -> usize {
        self.words.len()
    }

    /// Whether each number is 1, from this place to the end.
    pub(crate) fn flags(&self, alloc: Global, from: usize) -> Result<Vec<bool>> {
        let mut flags = Vec::new(alloc);
        for place in from..self.len() {
            flags.push(self.flag(place)?)?;
        }
        Ok(flags)
    }

    /// The original whose number stands at this place.
    #[tactic(auto, using(crate::proofs::ReadLemmas::read_of_kept))]
    pub(crate) fn original(&self, alloc: Global, place: usize) -> Result<Original>
        ensures { IfOk result IsRead }
    {
        let number = self.number(place)?;
        let text = format!(in alloc; "http://{number}.example/")?;
        Ok(read_original(alloc, text.as_str())?)
    }

    /// The same original, to be wished for.
    pub(crate) fn asked(&self, alloc: Global, place: usize) -> Result<AskedOriginal> {
        Ok(AskedOriginal::new(self.original(alloc, place)?))
    }
}
