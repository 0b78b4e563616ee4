//! The files that a command reads.
ghost use Rattle.std.specs.Prelude.{◌≡◌, ◌≢◌, ◌<◌, ◌≤◌, ℕ, List, [], ◌∷◌, ◌++◌, length, IfOk};
ghost use Rattle.std.specs.Io.KnownBytes.{ReadConsumes};
ghost use Rattle.outside.specs.Causes.{HasCause};
ghost use Rattle.outside.specs.Inputs.{FilesView};

use crate::Failed;

/// Files that are read from front to end. A file is numbered by the place of its word among the words
/// of the command line, from 0.
pub trait Inputs: Send {
    /// The bytes left in each file, where the object tells them, and the count of faults.
    ghost view: { Self → FilesView };

    /// Reads of these files, in this order and nothing beside them, have made the second of the first.
    ghost reads: { Self → List ℕ → Self → Type 0 };

    /// Moves the next bytes of a file to the front of the buffer, and answers how many. It is 0 only at
    /// the end of the file. A file that is missing is `Failed`.
    fn next(&mut self, file: u32, buf: &mut [u8]) -> Result<usize, Failed>
        requires { 0 < length buf.old }
        ensures bound { IfOk result (λ count. count ≤ length buf.new) }
        ensures bytes { ReadConsumes ((view self.old).left file) ((view self.new).left file) result buf.new }
        ensures others { (other : ℕ) → other ≢ file → (view self.new).left other ≡ (view self.old).left other }
        ensures cause { HasCause (view self.old).faults (view self.new).faults result }
        ensures read { reads self.old (file ∷ []) self.new };

    /// Where nothing is read, nothing changes.
    ghost reads_none: { (inputs : Self) → reads inputs [] inputs };

    /// Reads after reads are all of them in one.
    ghost reads_then: { (first second third : Self) (before after : List ℕ) → reads first before second
        → reads second after third → reads first (before ++ after) third };
}
