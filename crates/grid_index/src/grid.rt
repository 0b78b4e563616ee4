//! A grid of boxes.
ghost use Rattle.std.specs.Prelude.{◌≡◌, OnOk, OnErr};
ghost use Rattle.std.specs.FinMap as map;
ghost use Rattle.grid_index.specs.Grid.{boxes_in, with_box};

use crate::marks::{Mark, add_mark, drop_mark, drop_moved, mark_of};
use crate::tree::{drop_box, set_box};
use osm_base::{GeoBox, Key, OutOfMemory, Spot};
use std::alloc::Global;
use std::collections::{BTreeMap, BTreeSet};
use std::marker::Model;

/// The boxes of rows, by their spots.
#[derive(Drop)]
pub struct Grid {
    pub(crate) boxes: BTreeMap<Spot, GeoBox>,
    pub(crate) marks: BTreeSet<Mark>,
}

impl Model for Grid {
    ghost use Rattle.std.specs.FinMap as map;
    ghost use Rattle.osm_base.specs.declared.values.place.GeoBox.{GeoBox};
    ghost use Rattle.osm_base.specs.map.Spots.{SpotOf, spot_cmp};
    ghost use Rattle.osm_base.specs.contracts.map.tables.Spot as spot;
    ghost use Rattle.osm_base.specs.contracts.values.place.GeoBox as boxed;
    ghost use Rattle.grid_index.specs.Grid.{boxes_in};
    ghost use Rattle.grid_index.specs.Marks.{IsMarked};

    ghost Value = { map.FinMap spot_cmp GeoBox };

    ghost coded = { map.code spot.the_row.coded boxed.the_row.coded };

    ghost view = { λ grid. boxes_in grid.boxes };

    // A search finds each box by its mark.
    ghost invariant = { λ grid. (at : SpotOf) → IsMarked grid.marks.keys at (map.get (boxes_in grid.boxes) at) };
}

impl Grid {
    /// No box.
    pub fn new(alloc: Global) -> Self
        ensures empty { result ≡ map.empty }
    {
        Self {
            boxes: BTreeMap::new(alloc),
            marks: BTreeSet::new(alloc),
        }
    }

    /// Gives the row of an object in a table this box, or says that it has none any more. After `Err` nothing has changed.
    pub fn set(&mut self, table: u32, key: Key, place: Option<GeoBox>) -> Result<(), OutOfMemory>
        ensures ok { OnOk result (self.new ≡ with_box self.old table key place) }
        ensures err { OnErr result (self.new ≡ self.old) }
    {
        let spot = Spot { table, key };
        match place {
            Some(around) => self.put(spot, around),
            None => {
                self.take_out(spot);
                Ok(())
            }
        }
    }

    /// Gives a spot this box.
    fn put(&mut self, spot: Spot, around: GeoBox) -> Result<(), OutOfMemory>
        ensures ok { OnOk result (self.new ≡ map.insert self.old spot around) }
        ensures err { OnErr result (self.new ≡ self.old) }
    {
        let mark = mark_of(spot, around);
        add_mark(&mut self.marks, mark)?;
        let before = set_box(&mut self.boxes, spot, around)?;
        if let Some(before) = before {
            drop_moved(&mut self.marks, spot, before, around);
        }
        Ok(())
    }

    /// Takes the box of a spot away, if it has one.
    fn take_out(&mut self, spot: Spot)
        ensures gone { self.new ≡ map.remove self.old spot }
    {
        let before = drop_box(&mut self.boxes, spot);
        if let Some(before) = before {
            drop_mark(&mut self.marks, mark_of(spot, before));
        }
    }
}
