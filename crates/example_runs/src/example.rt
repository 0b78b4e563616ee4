//! Runs one after another, with what is wanted of each.

use crate::rows::push_bytes;
use crate::texts::Texts;
use crate::turn::Turn;
use std::alloc::{AllocError, Global};

/// What the disk holds at first, and the runs, each over the disk that the one before has left.
#[derive(Drop)]
pub struct Example {
    pub held: Vec<u8>,
    pub turns: Vec<Turn>,
}

impl Example {
    /// One run without words.
    pub fn new(alloc: Global) -> Result<Self, AllocError> {
        let mut turns = Vec::new(alloc);
        turns.push(Turn::new(alloc))?;
        Ok(Self {
            held: Vec::new(alloc),
            turns,
        })
    }

    /// Takes up what a row says. False: it is no row of a run.
    pub fn set(
        &mut self,
        alloc: Global,
        texts: &Texts,
        word: &str,
        text: &str,
    ) -> Result<bool, AllocError> {
        if word == "disk" {
            return push_bytes(alloc, &mut self.held, "part", text);
        }
        if word == "then" {
            self.begin_turn(alloc)?;
            return self.set_last(alloc, texts, "words", text);
        }
        self.set_last(alloc, texts, word, text)
    }

    /// Takes up what a row says of the last run.
    fn set_last(
        &mut self,
        alloc: Global,
        texts: &Texts,
        word: &str,
        text: &str,
    ) -> Result<bool, AllocError> {
        match self.turns.last_mut() {
            Some(turn) => turn.set(alloc, texts, word, text),
            None => Ok(false),
        }
    }

    /// Begins one run more, with the store of the one before.
    fn begin_turn(&mut self, alloc: Global) -> Result<(), AllocError> {
        let next = match self.turns.last() {
            Some(last) => Turn::behind(alloc, last)?,
            None => Turn::new(alloc),
        };
        self.turns.push(next)?;
        Ok(())
    }
}
