//! The maps whose keys are asked for rows.
ghost use Rattle.store_check.specs.Judged.{GoesWith, GoesWith-prop, rows_map};

use value_bytes::StoreMap;

/// A map of objects, or one of rows.
#[derive(Clone, Copy)]
pub(crate) struct RowSource {
    pub(crate) map: StoreMap,
    ghost goes: { GoesWith (rows_map map) map } by { GoesWith-prop map },
}
