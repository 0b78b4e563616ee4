//! What always holds of the numbers and the orders that code and definitions share.
ghost use Rattle.std.specs.Prelude.{◌≡◌, pos};
ghost use Rattle.std.specs.Cmp.{IsTotalOrder};
ghost use Rattle.std.specs.FinMap.{IsAntisymmetric};
ghost use Rattle.osm_base.specs.contracts.values.key.KeyOrd.TheImpl.{cmp-value};
ghost use Rattle.osm_base.specs.values.KeyOrder.{key_cmp};

use crate::{
    MAX_ENTRIES, MAX_ID, MAX_LAT, MAX_LINE_BYTES, MAX_LINES, MAX_LON, MAX_PAGES, MAX_PENDING,
};

/// The numbers that have names.
pub fn named_numbers()
    ensures id { MAX_ID ≡ 9223372036854775807 }
    ensures lon { MAX_LON ≡ pos 1800000000 }
    ensures lat { MAX_LAT ≡ pos 900000000 }
    ensures line_bytes { MAX_LINE_BYTES ≡ 4194304 }
    ensures lines { MAX_LINES ≡ 16777216 }
    ensures entries { MAX_ENTRIES ≡ 4194304 }
    ensures pages { MAX_PAGES ≡ 268435456 }
    ensures pending { MAX_PENDING ≡ 16777216 }
{}

/// The order of keys is that of a file, by kind and then by id. It is total, and no two keys tie.
pub fn key_order()
    ensures same { cmp-value.it ≡ key_cmp }
    ensures total { IsTotalOrder key_cmp }
    ensures alone { IsAntisymmetric key_cmp }
{}
