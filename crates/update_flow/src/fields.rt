//! What the root of a store says of it, and which of its texts says what.
ghost use Rattle.std.specs.Prelude.{◌≡◌};
ghost use Rattle.update_flow.specs.Roots.{is_blank, is_following, is_imported, is_in, is_of, is_old};

use crate::LAST_CHANGE;
use chain_store::Root;

/// The format of a store that was only made.
pub const BLANK_FORMAT: u64 = 1;

/// The state of a store that was only made.
pub const BLANK: u64 = 0;

/// The format of an imported store.
pub const IMPORTED_FORMAT: u64 = 2;

/// The format of an imported store that knows the places of nodes alone.
pub const OLD_FORMAT: u64 = 1;

/// The state of an imported store.
pub const IMPORTED: u64 = 1;

/// The state of a follower's store.
pub const FOLLOWING: u64 = 2;

/// The text with the bytes of the style.
pub const STYLE_TEXT: u32 = 1;

/// The text with the bytes of the due set.
pub const DUE_TEXT: u32 = 2;

/// The numbers that code and definitions share are those of the format.
pub fn shared_numbers()
    ensures blank_format { BLANK_FORMAT ≡ 1 }
    ensures blank { BLANK ≡ 0 }
    ensures imported_format { IMPORTED_FORMAT ≡ 2 }
    ensures old_format { OLD_FORMAT ≡ 1 }
    ensures imported { IMPORTED ≡ 1 }
    ensures following { FOLLOWING ≡ 2 }
    ensures style_text { STYLE_TEXT ≡ 1 }
    ensures due_text { DUE_TEXT ≡ 2 }
    ensures last_change { LAST_CHANGE ≡ 9223372036854775807 }
{}

/// Whether these may be the fields of a store that was only made.
pub fn is_blank(root: Root) -> bool
    ensures { result ≡ is_blank root }
{
    root.format == BLANK_FORMAT && root.state == BLANK && root.buckets == 0
}

/// Whether these may be those of an imported store.
pub fn is_imported(root: Root) -> bool
    ensures { result ≡ is_imported root }
{
    is_of(IMPORTED_FORMAT, root)
}

/// Whether these may be those of an old store.
pub fn is_old(root: Root) -> bool
    ensures { result ≡ is_old root }
{
    is_of(OLD_FORMAT, root)
}

/// Whether these may be those of a follower's store.
pub fn is_following(root: Root) -> bool
    ensures { result ≡ is_following root }
{
    is_in(FOLLOWING, IMPORTED_FORMAT, root)
}

/// Whether these may be those of a store that was imported in this format.
fn is_of(format: u64, root: Root) -> bool
    ensures { result ≡ is_of format root }
{
    is_in(IMPORTED, format, root)
}

/// Whether these may be those of a store that has this state in this format, and holds something.
fn is_in(state: u64, format: u64, root: Root) -> bool
    ensures { result ≡ is_in state format root }
{
    root.format == format && root.state == state && root.buckets != 0 && root.changes <= LAST_CHANGE
}
