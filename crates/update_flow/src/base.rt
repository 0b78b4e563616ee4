//! What the opening of a store that follows another one has found.
ghost use Rattle.std.specs.Prelude.{◌≡◌, ◌≤◌, None};
ghost use Rattle.update_flow.specs.declared.fault.TheConstants.{LAST_CHANGE};

use bucket_store::Resting;
use style_read::Style;

/// What the opening of a store that follows another one has found: what is kept of it, how many changes its tables have seen, and their
/// style. Without a style it was only made.
#[derive(Drop)]
pub struct Base {
    pub store: Resting,
    pub version: u64,
    pub style: Option<Style>,
    ghost counted: { version ≤ LAST_CHANGE },
    ghost begun: { style ≡ None → version ≡ 0 },
}
