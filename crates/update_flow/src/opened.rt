//! What the opening of a store has found.
ghost use Rattle.std.specs.Prelude.{◌≡◌, ◌≤◌, None, false};
ghost use Rattle.update_flow.specs.declared.fault.TheConstants.{LAST_CHANGE};

use bucket_store::Resting;
use style_read::Style;

/// What the opening of a store has found: what is kept of it, the number of its changes, its style where it is imported, and whether
/// it is an old one.
#[derive(Drop)]
pub struct Opened {
    pub store: Resting,
    pub changes: u64,
    pub style: Option<Style>,
    pub outdated: bool,
    ghost counted: { changes ≤ LAST_CHANGE },
    ghost begun: { style ≡ None → changes ≡ 0 },
    ghost unbegun: { style ≡ None → outdated ≡ false },
}
