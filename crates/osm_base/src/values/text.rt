//! A text that a contract sees as its characters.
ghost use Rattle.std.specs.Prelude.{◌≡◌, ◌++◌, List, ℕ, IfOk, OnOk, OnErr};
ghost use Rattle.std.specs.Cmp.Lexicographic.{slice_cmp};
ghost use Rattle.std.specs.Ordering.{eq_by_cmp, nat_cmp};
ghost use Rattle.std.specs.Str.{chars};
ghost use Rattle.std.specs.String.{string_bytes};

use crate::{OutOfMemory, TryCopy};
use std::alloc::Global;
use std::marker::Model;

/// A value of a tag, a role or another text of its own.
#[derive(Drop)]
pub struct Text {
    text: String,
}

impl Model for Text {
    ghost Value = { List ℕ };

    ghost view = { λ text. chars (string_bytes text.text) };
}

impl Text {
    /// The text with these characters.
    pub fn from_str(alloc: Global, text: &str) -> Result<Self, OutOfMemory>
        ensures characters { IfOk result (λ own. own ≡ chars text.now) }
    {
        Ok(Self {
            text: String::from_str(alloc, text)?,
        })
    }

    /// The text of a string; takes no memory.
    pub fn from_string(text: String) -> Self
        ensures characters { result ≡ chars (string_bytes text) }
    {
        Self { text }
    }

    /// Whether these are its characters.
    pub fn is(&self, text: &str) -> bool
        ensures same { result ≡ eq_by_cmp (slice_cmp nat_cmp) self.now (chars text.now) }
    {
        text == self.text.as_str()
    }

    /// Adds the characters of a text at the end.
    pub fn push_str(&mut self, text: &str) -> Result<(), OutOfMemory>
        ensures ok { OnOk result (self.new ≡ self.old ++ chars text.now) }
        ensures err { OnErr result (self.new ≡ self.old) }
    {
        let _before = self.text.as_str();
        self.text.push_str(text)?;
        Ok(())
    }

    /// The characters as Rust's text.
    pub fn as_str(&self) -> &str
        ensures characters { chars result.now ≡ self.now }
    {
        self.text.as_str()
    }
}

impl TryCopy for Text {
    fn copy(&self, alloc: Global) -> Result<Self, OutOfMemory> {
        Self::from_str(alloc, self.text.as_str())
    }
}
