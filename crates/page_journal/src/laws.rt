//! Laws of the definitions that contracts cite.
ghost use Rattle.std.specs.Prelude.{◌≡◌, List, ℕ, codes};
ghost use Rattle.std.specs.Int.{w64, to_le_bytes};
ghost use Rattle.page_journal.specs.Home.{Home};

use crate::layout::{
    COUNT_AT, FIELDS_END, FIRST_AT, FORMAT, FORMAT_AT, GATE_AT, MARK, OPEN, PAGE, PAGE_LEN,
    PER_PAGE, ROOT_AT, SHUT,
};

/// The same bytes have one list of home pages.
pub fn home_is_one()
    ensures { (pages others : List (List ℕ)) (bytes : List ℕ) → Home pages bytes → Home others bytes → pages ≡ others }
{}

/// The numbers that code and definitions share are those of the format.
pub fn shared_numbers()
    ensures mark { to_le_bytes w64 MARK ≡ codes "SLIMUPD1" }
    ensures page { PAGE ≡ 4096 }
    ensures page_len { PAGE_LEN ≡ 4096 }
    ensures per_page { PER_PAGE ≡ 512 }
    ensures first { FIRST_AT ≡ 8 }
    ensures count { COUNT_AT ≡ 16 }
    ensures end { FIELDS_END ≡ 24 }
    ensures gate { GATE_AT ≡ 4095 }
    ensures open { OPEN ≡ 1 }
    ensures shut { SHUT ≡ 0 }
    ensures root { ROOT_AT ≡ 4096 }
    ensures format_at { FORMAT_AT ≡ 4104 }
    ensures format { FORMAT ≡ 1 }
{}
