//! One run, with what is wanted of it.

use crate::gate::Holds;
use crate::rows::{push_bytes, push_words, set_number};
use crate::sweep::Sweep;
use crate::texts::Texts;
use crate::wanted::Wanted;
use example_table::{bytes_of, named_row, number_in};
use std::alloc::{AllocError, Global};

/// The most files that a run may be given.
const MAX_FILES: usize = 5_000;

/// A run: its words, the files by the numbers of their words, to how many bytes the disk is cut before and which bytes are put on
/// it, how often it is done one after another, what its gate holds, and which calls of the files, of the disk and of the output fail. It is
/// also done spoiled by each sweep, where so many calls format the disk; `crashes`: what a crash leaves is asked behind so many calls.
#[derive(Drop)]
pub struct Turn {
    pub words: Vec<String>,
    pub files: Vec<Vec<u8>>,
    pub cut: Option<u64>,
    pub puts: Vec<Put>,
    pub times: u64,
    pub holds: Holds,
    pub inputs: Plan,
    pub disk: Plan,
    pub output: Plan,
    pub sweeps: Vec<Sweep>,
    pub formats: u64,
    pub crashes: Option<u64>,
    pub wanted: Wanted,
}

/// Bytes that are put on the disk at a place.
#[derive(Drop)]
pub struct Put {
    pub at: usize,
    pub bytes: Vec<u8>,
}

/// Which calls fail: the one with a number, and all from a number on. 0 is no call.
#[derive(Clone, Copy)]
pub struct Plan {
    pub at: u64,
    pub from: u64,
}

impl Plan {
    /// No call fails.
    const NEVER: Plan = Plan { at: 0, from: 0 };
}

impl Turn {
    /// A run without words.
    pub fn new(alloc: Global) -> Self {
        Self::wanting(alloc, Wanted::new(alloc))
    }

    /// A run without words over the store of the one before.
    pub fn behind(alloc: Global, last: &Turn) -> Result<Self, AllocError> {
        Ok(Self::wanting(alloc, Wanted::behind(alloc, &last.wanted)?))
    }

    /// A run without words of which this is wanted.
    fn wanting(alloc: Global, wanted: Wanted) -> Self {
        Self {
            words: Vec::new(alloc),
            files: Vec::new(alloc),
            cut: None,
            puts: Vec::new(alloc),
            times: 1,
            holds: Holds::NOTHING,
            inputs: Plan::NEVER,
            disk: Plan::NEVER,
            output: Plan::NEVER,
            sweeps: Vec::new(alloc),
            formats: 0,
            crashes: None,
            wanted,
        }
    }

    /// The same run without sweeps, whatever the disk holds then.
    pub fn copied(&self, alloc: Global) -> Result<Self, AllocError> {
        let mut turn = Self::wanting(alloc, self.wanted.copied(alloc)?);
        turn.cut = self.cut;
        turn.times = self.times;
        turn.holds = self.holds;
        turn.inputs = self.inputs;
        turn.disk = self.disk;
        turn.output = self.output;
        turn.words = words_again(alloc, &self.words)?;
        turn.files = files_again(alloc, &self.files)?;
        turn.puts = puts_again(alloc, &self.puts)?;
        Ok(turn)
    }

    /// A check of the same store, which is to find it sound.
    pub fn checking(&self, alloc: Global) -> Result<Self, AllocError> {
        let store = self.wanted.store.as_str();
        let mut turn = Self::wanting(alloc, Wanted::sound(alloc, store)?);
        turn.words.push(String::from_str(alloc, "check")?)?;
        turn.words.push(String::from_str(alloc, store)?)?;
        Ok(turn)
    }

    /// The line with which a check behind the run may be refused, if any: of a store to be migrated that it is old, of one that follows
    /// another that it does.
    pub fn unjudged(&self) -> Option<&'static str> {
        match self.words.first() {
            Some(word) => unjudged_behind(word.as_str()),
            None => None,
        }
    }

    /// Takes up what a row says. False: it is no row of a run.
    pub fn set(
        &mut self,
        alloc: Global,
        texts: &Texts,
        word: &str,
        text: &str,
    ) -> Result<bool, AllocError> {
        match word {
            "words" | "word" | "word-times" => push_words(alloc, &mut self.words, word, text),
            "file" => self.begin_file(alloc, texts, text),
            "|" | "part" | "part-times" | "each" => match self.files.last_mut() {
                Some(file) => push_bytes(alloc, file, word, text),
                None => Ok(false),
            },
            "put" => self.push_put(alloc, text),
            "cut" | "times" => Ok(self.set_count(word, text)),
            "in-turn" | "in-build" | "ahead-held" | "built-held" => Ok(self.set_holds(word, text)),
            "inputs-fail-from" => Ok(set_number(&mut self.inputs.from, text)),
            "inputs-fail-at" => Ok(set_number(&mut self.inputs.at, text)),
            "disk-fails-from" => Ok(set_number(&mut self.disk.from, text)),
            "disk-fails-at" => Ok(set_number(&mut self.disk.at, text)),
            "output-fails-from" => Ok(set_number(&mut self.output.from, text)),
            "output-fails-at" => Ok(set_number(&mut self.output.at, text)),
            "formats" => Ok(set_number(&mut self.formats, text)),
            "each-call" | "each-page" => self.push_sweep(word, text),
            _ => self.wanted.set(alloc, word, text),
        }
    }

    /// One sweep more.
    fn push_sweep(&mut self, word: &str, text: &str) -> Result<bool, AllocError> {
        let Some(sweep) = Sweep::of(word, text) else {
            return Ok(false);
        };
        self.sweeps.push(sweep)?;
        Ok(true)
    }

    /// What the gate holds.
    fn set_holds(&mut self, word: &str, text: &str) -> bool {
        let Some(holds) = Holds::of(word, text) else {
            return false;
        };
        self.holds = holds;
        true
    }

    /// How many bytes of the disk are left, or how often the run is done.
    fn set_count(&mut self, word: &str, text: &str) -> bool {
        let Some(number) = number_in(text) else {
            return false;
        };
        if word == "cut" {
            self.cut = Some(number);
        } else {
            self.times = number;
        }
        true
    }

    /// The number of a place and the bytes that are put there.
    fn push_put(&mut self, alloc: Global, text: &str) -> Result<bool, AllocError> {
        let Some((at, field)) = named_row(text) else {
            return Ok(false);
        };
        match (number_in(at), bytes_of(alloc, field)?) {
            (Some(at), Some(bytes)) => {
                self.puts.push(Put {
                    at: at as usize,
                    bytes,
                })?;
                Ok(true)
            }
            _ => Ok(false),
        }
    }

    /// Begins the file of the word with this number, and with the text of a name where one stands behind. The files between are
    /// empty.
    fn begin_file(&mut self, alloc: Global, texts: &Texts, text: &str) -> Result<bool, AllocError> {
        let Some((number, name)) = named_row(text) else {
            return Ok(false);
        };
        let Some(number) = number_in(number) else {
            return Ok(false);
        };
        if number as usize >= MAX_FILES || (number as usize) < self.files.len() {
            return Ok(false);
        }
        for _ in self.files.len()..number as usize + 1 {
            self.files.push(Vec::new(alloc))?;
        }
        if name.is_empty() {
            return Ok(true);
        }
        match (texts.get(name), self.files.last_mut()) {
            (Some(bytes), Some(file)) => {
                file.extend_from_slice(bytes)?;
                Ok(true)
            }
            _ => Ok(false),
        }
    }
}

/// The line with which a check behind this command may be refused, if any.
fn unjudged_behind(command: &str) -> Option<&'static str> {
    match command {
        "migrate" => Some("old format"),
        "follow" => Some("follower"),
        _ => None,
    }
}

/// The same words.
fn words_again(alloc: Global, words: &[String]) -> Result<Vec<String>, AllocError> {
    let mut all = Vec::new(alloc);
    for word in words {
        all.push(String::from_str(alloc, word)?)?;
    }
    Ok(all)
}

/// The same files.
fn files_again(alloc: Global, files: &[Vec<u8>]) -> Result<Vec<Vec<u8>>, AllocError> {
    let mut all = Vec::new(alloc);
    for file in files {
        all.push(Vec::from_slice(alloc, file)?)?;
    }
    Ok(all)
}

/// The same bytes at their places.
fn puts_again(alloc: Global, puts: &[Put]) -> Result<Vec<Put>, AllocError> {
    let mut all = Vec::new(alloc);
    for put in puts {
        all.push(Put {
            at: put.at,
            bytes: Vec::from_slice(alloc, &put.bytes)?,
        })?;
    }
    Ok(all)
}
