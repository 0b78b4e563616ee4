//! What the rows of keys are in a whole map.
ghost use Rattle.std.specs.Prelude.{List};
ghost use Rattle.osm_base.specs.map.Known.{Known};
ghost use Rattle.osm_base.specs.values.Key.{KeyOf};
ghost use Rattle.style_read.specs.Style.{StyleOf};
ghost use Rattle.geom_workers.specs.Rows.{RowsAgree};

/// Where what is known of a map suffices for keys, their rows are those of the fresh import.
pub fn rows_agree()
    ensures agree { (style : StyleOf) (known : Known) (keys : List KeyOf) → RowsAgree style known keys }
{}
