//! How long a lot of a file is.
ghost use Rattle.std.specs.Prelude.{◌<◌};

/// How many bytes a lot has, one at least. The last lot of a file may be shorter.
#[derive(Clone, Copy)]
pub struct LotSize {
    pub bytes: usize,
    ghost some: { 0 < bytes },
}
