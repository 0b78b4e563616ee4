//! Files in memory, of which a gate is told which are asked for.

use crate::gate::InTurn;
use doubles::MemInputs;
use outside::{Failed, Inputs};
use std::marker::Model;

/// Files that do what those in memory do, and tell this gate the number of each that is asked for.
#[derive(Drop)]
pub struct WatchedFiles<'g> {
    files: MemInputs,
    gate: &'g InTurn,
}

// Contracts see the count of faults.
impl<'g> Model for WatchedFiles<'g> {
    ghost use Rattle.std.specs.Prelude.{ℕ};

    ghost Value = { ℕ };

    ghost view = { λ inputs. inputs.files.calls.failed };
}

impl<'g> WatchedFiles<'g> {
    /// These files, of which none was asked for.
    pub fn new(files: MemInputs, gate: &'g InTurn) -> Self {
        Self { files, gate }
    }
}

impl Inputs for WatchedFiles<'_> {
    ghost use Rattle.std.specs.Prelude.{None};

    ghost view = { λ faults. record { left = λ _. None; faults = faults } };

    ghost reads = { λ _ _ _. Unit {0} };

    ghost reads_none = { λ _. tt };

    ghost reads_then = { λ _ _ _ _ _ _ _. tt };

    fn next(&mut self, file: u32, buf: &mut [u8]) -> Result<usize, Failed> {
        self.gate.ask(file);
        self.files.next(file, buf)
    }
}
