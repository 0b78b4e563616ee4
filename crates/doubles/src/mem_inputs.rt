//! Files in memory, read as `Inputs`.
ghost use Rattle.std.specs.Prelude.{◌≡◌, ◌≢◌, ◌<◌, ◌≤◌, ◌⊎◌, ◌↔◌, ℕ, [], ◌∷◌, min, length, slice_get, slice_index_or, IfOk, IsErr, is_err};
ghost use Rattle.std.specs.Io.KnownBytes.{ReadConsumes};
ghost use Rattle.doubles.specs.Calls.{NamesNext, after_call};
ghost use Rattle.outside.specs.Causes.{HasCause};
ghost use Rattle.doubles.specs.MemInputs.{Reads, reads_then_reads};
ghost use Rattle.std.proofs.Common.{refl};

use crate::Fails;
use crate::calls::Calls;
use crate::files_left::FilesLeft;
use osm_base::FileList;
use outside::{Failed, Inputs};
use std::marker::Model;

/// Files in memory, of which each call tells how many bytes are left. They fail at the calls that a
/// plan names and at a word that has no file, and nowhere else.
#[derive(Drop)]
pub struct MemInputs {
    files: FilesLeft,
    calls: Calls,
}

impl Model for MemInputs {
    ghost use Rattle.doubles.specs.MemInputs.{FilesRead};

    ghost Value = { FilesRead };

    ghost view = { λ inputs. record { left = inputs.files; calls = inputs.calls } };
}

impl MemInputs {
    /// A file for each word: its bytes stand at the number of its word.
    pub fn new(files: FileList, fails: Fails) -> Self
        ensures whole { result ≡ record { left = files; calls = record { fails = fails; made = 0; failed = 0 } } }
    {
        Self {
            files: FilesLeft::new(files),
            calls: Calls::new(fails),
        }
    }
}

impl Inputs for MemInputs {
    ghost view = { λ inputs. record { left = λ file. slice_get inputs.left file; faults = inputs.calls.failed } };

    ghost reads = { Reads };

    ghost reads_none = { λ inputs other beside. refl };

    ghost reads_then = { reads_then_reads };

    fn next(&mut self, file: u32, buf: &mut [u8]) -> Result<usize, Failed>
        requires { 0 < length buf.old }
        ensures bound { IfOk result (λ count. count ≤ length buf.new) }
        ensures bytes { ReadConsumes (slice_get self.old.left file) (slice_get self.new.left file) result buf.new }
        ensures others { (other : ℕ) → other ≢ file → slice_get self.new.left other ≡ slice_get self.old.left other }
        ensures cause { HasCause self.old.calls.failed self.new.calls.failed result }
        ensures read { Reads self.old (file ∷ []) self.new }
        ensures failed { IsErr result ↔ (NamesNext self.old.calls ⊎ (length self.old.left ≤ file)) }
        ensures count { IfOk result (λ count. count ≡ min (length buf.old) (length (slice_index_or self.old.left file []))) }
        ensures calls { self.new.calls ≡ after_call self.old.calls (is_err result) }
    {
        self.calls.begin()?;
        let place = file as usize;
        if self.files.len() <= place {
            return Err(self.calls.fail());
        }
        Ok(self.files.read(place, buf))
    }
}
