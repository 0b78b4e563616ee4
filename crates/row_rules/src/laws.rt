//! What always holds of rows and tables, and of the numbers that code and definitions share.
ghost use Rattle.std.specs.Prelude.{◌≡◌, ℕ, None, Some, false};
ghost use Rattle.std.specs.FinMap as finite;
ghost use Rattle.std.specs.List.{slice_get};
ghost use Rattle.osm_base.specs.map.Objects.{ObjectSet};
ghost use Rattle.osm_base.specs.map.Spots.{SpotOf};
ghost use Rattle.osm_base.specs.values.Key.{KeyOf};
ghost use Rattle.style_read.specs.declared.style.TableDef.{TableDef};
ghost use Rattle.style_read.specs.Style.{StyleOf};
ghost use Rattle.row_rules.specs.Agree.{Agree};
ghost use Rattle.row_rules.specs.Material.{Material};
ghost use Rattle.row_rules.specs.Row.{row, row_from, tables};
ghost use Rattle.row_rules.specs.Wanted.{may_have_rows};

use crate::{COMMA, MAX_DIGITS, MINUS};

/// The numbers that have names.
pub fn shared_numbers()
    ensures minus { MINUS ≡ 45 }
    ensures comma { COMMA ≡ 44 }
    ensures digits { MAX_DIGITS ≡ 18 }
{}

/// All tables of a map have at each spot the row that its object has in that table, and none where it has none.
pub fn tables_are_rows()
    ensures spot { (style : StyleOf) (objects : ObjectSet) (spot : SpotOf) → finite.get (tables style objects) spot ≡ row style objects spot.table spot.key }
{}

/// Rows are local: they are equal where all that they are made of is the same.
pub fn rows_are_local()
    ensures same { (style : StyleOf) (table : ℕ) (key : KeyOf) (one other : Material)
        → ((definition : TableDef) → slice_get style.tables table ≡ Some definition → Agree definition key one other)
        → row_from style table one key ≡ row_from style table other key }
{}

/// An object that no table may want has no row, whatever its row would be made of.
pub fn unwanted_has_no_row()
    ensures none { (style : StyleOf) (table : ℕ) (from : Material) (key : KeyOf) → may_have_rows style (from.object key) ≡ false → row_from style table from key ≡ None }
{}
