//! The steps of the machine.

/// One atomic action of one actor. Workers and readers are numbered from 0.
#[derive(Clone, Copy, PartialEq, Eq)]
pub enum Event {
    /// A worker draws the next number.
    Draw(u32),
    /// A worker builds the first of its tickets that is not built.
    Build(u32),
    /// A worker that found no ticket more ends.
    End(u32),
    /// What was built is kept for good.
    Commit,
    /// What was committed is shown to readers.
    Publish,
    /// The line that tells of a commit is taken.
    Ack,
    /// A reader looks.
    Enter(u32),
    /// The program stops, and begins again over what was kept.
    Crash,
}
