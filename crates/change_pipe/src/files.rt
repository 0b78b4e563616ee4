//! The files that are read.
ghost use Rattle.std.specs.Prelude.{◌+◌, ◌≤◌};

/// The change files of a command, by the places of their words: so many from the first on.
#[derive(Clone, Copy)]
pub struct ChangeFiles {
    pub first: u32,
    pub count: u32,
    ghost few: { first + count ≤ 8192 },
}
