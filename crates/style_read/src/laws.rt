//! Laws of the definitions that contracts cite.
ghost use Rattle.std.specs.Prelude.{◌≡◌};

use crate::condition::{BANG, EQUALS};
use crate::name::{MAX_NAME, UNDERSCORE};
use crate::style::{MAX_COLUMNS, MAX_SELECTIONS, MAX_TABLES};

/// The numbers that code and definitions share are those of a style.
pub fn shared_numbers()
    ensures selections { MAX_SELECTIONS ≡ 64 }
    ensures tables { MAX_TABLES ≡ 256 }
    ensures columns { MAX_COLUMNS ≡ 256 }
    ensures name { MAX_NAME ≡ 63 }
    ensures underscore { UNDERSCORE ≡ 95 }
    ensures bang { BANG ≡ 33 }
    ensures equals { EQUALS ≡ 61 }
{}
