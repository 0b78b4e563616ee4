//! Texts with names, which files of runs may hold.

use crate::rows::push_bytes;
use example_table::named_row;
use std::alloc::{AllocError, Global};

/// Texts, each with its name.
#[derive(Drop)]
pub struct Texts {
    named: Vec<Named>,
}

/// A text with its name.
#[derive(Drop)]
struct Named {
    name: String,
    bytes: Vec<u8>,
}

impl Texts {
    /// No text.
    pub fn new(alloc: Global) -> Self {
        Self {
            named: Vec::new(alloc),
        }
    }

    /// The texts of a table: a row `text NAME`, and behind it the rows of bytes. `None`: a row is not in its form.
    pub fn of(alloc: Global, table: &str) -> Result<Option<Self>, AllocError> {
        let mut texts = Self::new(alloc);
        for line in table.lines() {
            let Some((word, text)) = named_row(line) else {
                continue;
            };
            if !texts.set(alloc, word, text)? {
                return Ok(None);
            }
        }
        Ok(Some(texts))
    }

    /// Takes up what a row says. False: it is no row of a text.
    fn set(&mut self, alloc: Global, word: &str, text: &str) -> Result<bool, AllocError> {
        if word == "text" {
            self.named.push(Named {
                name: String::from_str(alloc, text)?,
                bytes: Vec::new(alloc),
            })?;
            return Ok(true);
        }
        match self.named.last_mut() {
            Some(own) => push_bytes(alloc, &mut own.bytes, word, text),
            None => Ok(false),
        }
    }

    /// The text of a name.
    pub fn get(&self, name: &str) -> Option<&[u8]> {
        for own in &self.named {
            if own.name.as_str() == name {
                return Some(own.bytes.as_slice());
            }
        }
        None
    }
}
