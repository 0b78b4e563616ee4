//! The rule of a pipe: what was put is what was taken, and then what the pipe holds.

use crate::parcel::Parcel;
use crate::view::View;
use crossbeam_queue::RuledArrayQueue;
use crossbeam_queue::protocol::{Join, Lesson, Outcome, Protocol, Split};

/// The rule.
pub(crate) struct Order;

impl Protocol<Parcel, View> for Order {
    ghost use Rattle.std.specs.Prelude.{true, []};
    ghost use Rattle.change_pipe.specs.Rule.{IsInOrder, hand};

    ghost holds = { IsInOrder };

    ghost first = { hand true true [] [] };
}

/// A pass is cut in two: one puts, and the other takes.
pub(crate) struct Roles;

impl Split<View> for Roles {
    ghost use Rattle.std.specs.Prelude.{true, false, []};
    ghost use Rattle.change_pipe.specs.Rule.{hand};

    ghost left = { λ v. hand true false v.sent [] };

    ghost right = { λ v. hand false true [] v.got };
}

/// They are one again.
pub(crate) struct Both;

impl Join<View> for Both {
    ghost use Rattle.std.specs.Prelude.{true, false, []};
    ghost use Rattle.change_pipe.specs.Rule.{hand};

    ghost both = { λ v w. hand true true v.sent w.got };

    ghost spent = { hand false false [] [] };
}

/// A parcel is put.
pub(crate) struct Puts;

impl Outcome<Parcel, View> for Puts {
    ghost use Rattle.std.specs.Prelude.{◌≡◌, ◌++◌, ◌∷◌, []};
    ghost use Rattle.change_pipe.specs.Rule.{hand};

    ghost then = { λ v x w. w ≡ hand v.puts v.takes (v.sent ++ x ∷ []) v.got };
}

/// Where there is no room, as many were put as the pipe may hold.
impl Lesson<Parcel, View> for Puts {
    ghost use Rattle.std.specs.Prelude.{◌≤◌, length};

    ghost fact = { λ v items. length items ≤ length v.sent };
}

/// A parcel is taken.
pub(crate) struct Takes;

impl Outcome<Parcel, View> for Takes {
    ghost use Rattle.std.specs.Prelude.{◌≡◌, ◌++◌, ◌∷◌, []};
    ghost use Rattle.change_pipe.specs.Rule.{hand};

    ghost then = { λ v x w. w ≡ hand v.puts v.takes v.sent (v.got ++ x ∷ []) };
}

impl Lesson<Parcel, View> for Takes {
    ghost use Rattle.std.specs.Prelude.{⊤};

    ghost fact = { λ v items. ⊤ };
}

/// What was put is known together with what was taken.
pub(crate) struct Ends;

impl Lesson<Parcel, View> for Ends {
    ghost use Rattle.std.specs.Prelude.{◌≡◌, ◌≤◌, ◌++◌, length};
    ghost use Rattle.change_pipe.specs.declared.pipe.TheConstants.{MAX_AHEAD};

    ghost fact = { λ v items. (v.sent ≡ v.got ++ items) × (length items ≤ MAX_AHEAD) };
}

/// The queue of a pipe.
pub(crate) type Line = RuledArrayQueue<Parcel, View, Order>;
