//! What rows are put into while they are read.
ghost use Rattle.std.specs.Prelude.{◌≡◌, OnOk};
ghost use Rattle.std.specs.FinMap as finite;
ghost use Rattle.osm_base.specs.map.Spots.{TableMap};

use osm_base::{OutOfMemory, Row, RowChange, Spot, Tables};

/// Has rows by their spots, and is given more of them.
pub(crate) trait Filled {
    /// The rows that it has.
    ghost tables: { Self → TableMap };

    /// Puts a row at a spot.
    fn put(&mut self, spot: Spot, row: Row) -> Result<(), OutOfMemory>
        ensures ok { OnOk result (tables self.new ≡ finite.insert (tables self.old) spot row) };
}

impl Filled for Tables {
    ghost tables = { λ own. own };

    fn put(&mut self, spot: Spot, row: Row) -> Result<(), OutOfMemory> {
        self.apply(RowChange {
            table: spot.table,
            key: spot.key,
            row: Some(row),
        })
    }
}
