//! Real files, read as `Inputs`.
ghost use Rattle.std.specs.Prelude.{◌≡◌, ◌≢◌, ◌<◌, ◌≤◌, ℕ, None, Option, List, length, IfOk, is_err, if◌then◌else◌};
ghost use Rattle.std.specs.Io.KnownBytes.{ReadConsumes};
ghost use Rattle.std.specs.Io.{ReadsAtMost};
ghost use Rattle.outside.specs.Counts.{one_more};
ghost use Rattle.outside.specs.Causes.{HasCause};

use crate::{Failed, Inputs};
use std::fs::{self, OpenFile};
use std::io::{self, Error, ErrorKind, Read};
use std::marker::Model;
use std::rt::Files;

/// The files that words name, which are their paths. A file is opened at its first read, and one is
/// open at a time: a file that was left for another is read from its first byte again. Every error
/// of the system is a fault, and so is a word that is not there. No bytes are told, since no proof
/// says what a file holds.
#[derive(Drop)]
pub struct FileInputs<'w, R: Files> {
    files: NamedFiles<'w, R>,
    faults: u64,
}

// The files of words, of which one may be open.
#[derive(Drop)]
struct NamedFiles<'w, R: Files> {
    rt: R,
    words: &'w [String],
    open: Option<(u32, R::File)>,
}

// Contracts see the count of faults.
impl<'w, R: Files> Model for FileInputs<'w, R> {
    ghost use Rattle.std.specs.Prelude.{ℕ};

    ghost Value = { ℕ };

    ghost view = { λ inputs. inputs.faults };
}

impl<'w, R: Files> FileInputs<'w, R> {
    /// The files of these words, none of them opened yet.
    pub fn new(rt: R, words: &'w [String]) -> Self
        ensures none { result ≡ 0 }
    {
        Self {
            files: NamedFiles {
                rt,
                words,
                open: None,
            },
            faults: 0,
        }
    }
}

impl<R: Files + Drop> NamedFiles<'_, R> {
    // Opens the file where another one is open, or none.
    fn turn_to(&mut self, file: u32) -> io::Result<()> {
        if matches!(&self.open, Some((number, _)) if *number == file) {
            return Ok(());
        }
        let path = self
            .words
            .get(file as usize)
            .ok_or(Error::from(ErrorKind::NotFound))?;
        self.open = Some((file, fs::open(&self.rt, path.as_str())?));
        Ok(())
    }

    fn try_read(&mut self, file: u32, buf: &mut [u8]) -> io::Result<usize>
        ensures bound { ReadsAtMost result buf.new }
    {
        self.turn_to(file)?;
        match &mut self.open {
            Some((_, open)) => open.read(buf),
            None => Err(Error::from(ErrorKind::NotFound)),
        }
    }
}

impl<R: Files + Drop> FileInputs<'_, R> {
    /// The path of a file, where there is such a word.
    pub(crate) fn path_of(&self, file: u32) -> Option<&str> {
        Some(self.files.words.get(file as usize)?.as_str())
    }

    /// How many bytes the file has that is open, where it tells that: a pipe does not.
    pub(crate) fn open_len(&self) -> Option<u64> {
        let (_, open) = self.files.open.as_ref()?;
        let told = open.metadata().ok()?;
        if told.is_file() {
            Some(told.len())
        } else {
            None
        }
    }

    /// Reads on in a file; a fault is counted exactly where that fails.
    pub(crate) fn read(&mut self, file: u32, buf: &mut [u8]) -> Result<usize, Failed>
        ensures bound { IfOk result (λ count. count ≤ length buf.new) }
        ensures counted { self.new ≡ (if is_err result then one_more self.old else self.old) }
        ensures cause { HasCause self.old self.new result }
    {
        match self.files.try_read(file, buf) {
            Ok(count) => Ok(count),
            Err(_) => {
                self.faults = self.faults.saturating_add(1);
                Err(Failed)
            }
        }
    }
}

impl<R: Files + Drop + Send> Inputs for FileInputs<'_, R>
where
    R::File: Send,
{
    ghost view = { λ faults. record { left = λ _. None; faults = faults } };

    ghost reads = { λ _ _ _. Unit {0} };

    ghost reads_none = { λ _. tt };

    ghost reads_then = { λ _ _ _ _ _ _ _. tt };

    fn next(&mut self, file: u32, buf: &mut [u8]) -> Result<usize, Failed> {
        self.read(file, buf)
    }
}
