//! What always holds of the numbers that code and definitions share.
ghost use Rattle.std.specs.Prelude.{◌≡◌};

use crate::boundary_line::{MINUS, MOST_DIGITS, MOST_UNITS};
use crate::runs::MAX_ZOOM;

/// The numbers that have names.
pub fn shared_numbers()
    ensures zoom { MAX_ZOOM ≡ 16 }
    ensures minus { MINUS ≡ 45 }
    ensures digits { MOST_DIGITS ≡ 10 }
    ensures units { MOST_UNITS ≡ 900000000 }
{}
