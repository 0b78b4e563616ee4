//! Real files, read as `Inputs`, that tell how far they are read.
ghost use Rattle.std.specs.Prelude.{◌≡◌, None};

use crate::progress::Reading;
use crate::{Failed, FileInputs, Inputs, Progress};
use std::marker::Model;
use std::rt::{Clock, Files};
use std::time::Duration;

/// The files that words name, as `FileInputs` reads them; a line tells beside that how far the one is read that is open.
#[derive(Drop)]
pub struct TellingFiles<'w, R: Files> {
    files: FileInputs<'w, R>,
    progress: &'w Progress<R>,
    // The file that is read.
    turn: Option<Turn>,
}

// How far a file is read: its number, how many bytes were read and how many it has, where it tells that; and how long the
// run had taken when it was opened.
#[derive(Clone, Copy)]
struct Turn {
    file: u32,
    done: u64,
    len: Option<u64>,
    since: Duration,
}

// Contracts see the count of faults.
impl<'w, R: Files> Model for TellingFiles<'w, R> {
    ghost use Rattle.std.specs.Prelude.{ℕ};

    ghost Value = { ℕ };

    ghost view = { λ inputs. inputs.files };
}

impl<'w, R: Files> TellingFiles<'w, R> {
    /// The files of these words, none of them opened yet.
    pub fn new(rt: R, words: &'w [String], progress: &'w Progress<R>) -> Self
        ensures none { result ≡ 0 }
    {
        Self {
            files: FileInputs::new(rt, words),
            progress,
            turn: None,
        }
    }
}

impl<R: Files + Clock + Eprint + Drop> TellingFiles<'_, R> {
    // Tells that so many bytes more of a file were read.
    fn tell(&mut self, file: u32, count: usize)
        ensures same { self.new ≡ self.old }
    {
        let mut turn = match self.turn {
            Some(turn) if turn.file == file => turn,
            _ => self.turn_of(file),
        };
        turn.done = turn.done.saturating_add(count as u64);
        self.turn = Some(turn);
        if let Some(path) = self.files.path_of(file) {
            self.progress.tell_reading(Reading {
                path,
                done: turn.done,
                len: turn.len,
                since: turn.since,
            });
        }
    }

    // The turn of a file of which nothing was read before.
    fn turn_of(&self, file: u32) -> Turn {
        Turn {
            file,
            done: 0,
            len: self.files.open_len(),
            since: self.progress.passed().unwrap_or_default(),
        }
    }
}

impl<R: Files + Clock + Eprint + Drop + Send + Sync> Inputs for TellingFiles<'_, R>
where
    R::File: Send,
{
    ghost view = { λ faults. record { left = λ _. None; faults = faults } };

    ghost reads = { λ _ _ _. Unit {0} };

    ghost reads_none = { λ _. tt };

    ghost reads_then = { λ _ _ _ _ _ _ _. tt };

    fn next(&mut self, file: u32, buf: &mut [u8]) -> Result<usize, Failed> {
        let count = self.files.read(file, buf)?;
        self.tell(file, count);
        Ok(count)
    }
}
