//! The numbers that code and definitions share.
ghost use Rattle.std.specs.Prelude.{◌≡◌};

use crate::files::MAX_WHOLE;
use crate::ranges::{MAX_AHEAD, MAX_BUCKETS, MAX_READERS, MAX_WORKERS};

/// The numbers that have names, as the readme tells them.
pub fn shared_numbers()
    ensures whole { MAX_WHOLE ≡ 1048576 }
    ensures most_workers { MAX_WORKERS ≡ 64 }
    ensures most_readers { MAX_READERS ≡ 64 }
    ensures most_buckets { MAX_BUCKETS ≡ 65536 }
    ensures most_ahead { MAX_AHEAD ≡ 8 }
{}
