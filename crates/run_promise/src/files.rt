//! The files of a command.
/// The files of a command, by the places of their words: so many from the first on.
#[derive(Clone, Copy)]
pub struct Files {
    pub first: u32,
    pub count: u32,
}

/// The most bytes of a STYLE, of BOUNDS or of QUERIES.
pub const MAX_WHOLE: u64 = 1_048_576;
