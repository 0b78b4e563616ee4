//! The numbers that code and definitions share.
ghost use Rattle.std.specs.Prelude.{◌≡◌};

use crate::forms::MAX_KEY;
use crate::options::{BUCKETS, READERS, WORKERS};
use crate::words::MAX_WORDS;

/// The numbers that have names, as the readme tells them.
pub fn shared_numbers()
    ensures key { MAX_KEY ≡ 255 }
    ensures words { MAX_WORDS ≡ 4096 }
    ensures workers { WORKERS ≡ 4 }
    ensures readers { READERS ≡ 2 }
    ensures buckets { BUCKETS ≡ 1024 }
{}
