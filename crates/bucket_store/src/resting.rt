//! What was read of a store when it was opened.
ghost use Rattle.std.specs.Prelude.{◌≡◌, ◌*◌, ◌^◌, ◌≤◌};
ghost use Rattle.chain_store.specs.Kept.{AreAllBehindRoot};

use chain_store::{Kept, Root};

/// What was read of a store when it was opened. The disk and this are the open store.
#[derive(Drop)]
pub struct Resting {
    pub(crate) pages: u64,
    pub(crate) kept: Kept,
    ghost some: { 2 ≤ pages },
    ghost small: { 4096 * pages ≤ 2 ^ 62 },
    ghost inside: { AreAllBehindRoot pages kept.directories.items },
}

impl Resting {
    ghost use Rattle.bucket_store.specs.Opening.{opened_root};

    /// The fields of the store.
    pub fn root(&self) -> Root
        ensures { result ≡ opened_root self.now }
    {
        self.kept.root()
    }
}
