//! Laws of what a store means.
ghost use Rattle.std.specs.Prelude.{◌≡◌, ℕ};
ghost use Rattle.bucket_store.specs.Image.{Image};
ghost use Rattle.bucket_store.specs.Needed.{NeedsPages};

/// What a store means tells how many home pages it needs.
pub fn one_number_is_needed()
    ensures { (home : ℕ) (image : Image) (pages other : ℕ) → NeedsPages home image pages → NeedsPages home image other → pages ≡ other }
{}
