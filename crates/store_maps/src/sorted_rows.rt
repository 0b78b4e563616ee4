//! Rows in the order of their spots.
ghost use Rattle.std.specs.Prelude.{◌≡◌, T};
ghost use Rattle.std.specs.FinMap as finite;
ghost use Rattle.osm_base.specs.map.Spots.{spot_cmp};

use osm_base::{Row, Spot};
use std::marker::Model;

/// Rows by strictly rising spots.
#[derive(Drop)]
pub struct SortedRows {
    rows: Vec<(Spot, Row)>,
}

impl Model for SortedRows {
    ghost use Rattle.std.specs.Prelude.{T};
    ghost use Rattle.std.specs.FinMap as finite;
    ghost use Rattle.osm_base.specs.declared.values.row.Row.{Row};
    ghost use Rattle.osm_base.specs.map.Spots.{spot_cmp};
    ghost use Rattle.osm_base.specs.contracts.map.tables.Spot as spot;
    ghost use Rattle.osm_base.specs.contracts.values.row.Row as row;

    ghost Value = { finite.FinMap spot_cmp Row };

    ghost coded = { finite.code spot.the_row.coded row.the_row.coded };

    ghost view = { λ sorted. finite.from_sorted sorted.rows.items };

    ghost invariant = { λ sorted. T (finite.is_sorted spot_cmp sorted.rows.items) };
}

impl SortedRows {
    /// Rows that rise by their spots.
    pub fn from_rising(rows: Vec<(Spot, Row)>) -> Self
        requires rising { T (finite.is_sorted spot_cmp rows.items) }
        ensures same { result ≡ finite.from_sorted rows.items }
    {
        Self { rows }
    }

    /// The rows with their spots, in order.
    pub fn rows(&self) -> &[(Spot, Row)]
        ensures rows { result.now ≡ finite.entries self.now }
    {
        self.rows.as_slice()
    }
}
