//! The rule of the versions that readers are shown: each is what its history makes of the first tables.
use crate::front::Head;
use crate::shown::Shown;
use atomic_table::{Join, Split};
use crossbeam_utils::rule::{Outcome, Protocol};

/// What a thread knows: which history is shown, if it knows it.
pub type View = Option<Head>;

/// The rule.
pub struct Published;

impl Protocol<Shown, View> for Published {
    ghost use Rattle.std.specs.Prelude.{None};
    ghost use Rattle.table_versions.specs.Rule.{IsKept};

    ghost holds = { λ shown views. IsKept shown views };

    ghost first = { None };
}

/// A step that learns which history is shown.
pub struct Opens;

impl Outcome<Shown, View> for Opens {
    ghost use Rattle.std.specs.Prelude.{◌≡◌, Some};

    ghost then = { λ before old new after. after ≡ Some new.front.book };
}

/// A step that shows the next version, or looks at one.
pub struct Sees;

impl Outcome<Shown, View> for Sees {
    ghost use Rattle.table_versions.specs.Rule.{Looks};

    ghost then = { λ before old new after. Looks before new after };
}

/// A note of what a thread knows.
pub struct Notes;

impl Split<View> for Notes {
    ghost left = { λ view. view };

    ghost right = { λ view. view };
}

impl Join<View> for Notes {
    ghost use Rattle.std.specs.Prelude.{None};

    ghost both = { λ own note. note };

    ghost spent = { None };
}
