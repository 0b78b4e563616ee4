//! The row of a way.
ghost use Rattle.std.specs.Prelude.{◌≡◌, ◌++◌, OnOk};
ghost use Rattle.std.specs.Str.{chars};
ghost use Rattle.std.specs.String.{string_bytes};
ghost use Rattle.osm_base.specs.values.Key.{IsId};
ghost use Rattle.tag_rows.specs.WayRows.{row_known};

use line_build::line_of;
use osm_base::{Geometry, Key, Kind, Lookup, Object, OutOfMemory};
use row_text::push_text_row;
use std::alloc::Global;

/// Appends the row of a way, where it has the tag of this key and a line.
pub fn push_row<L: Lookup>(
    alloc: Global,
    out: &mut String,
    objects: &L,
    key: &str,
    id: u64,
) -> Result<(), OutOfMemory>
    requires { IsId id }
    ensures row { OnOk result (string_bytes out.new ≡ string_bytes out.old ++ row_known (chars key.now) (L.known objects.now) id) }
{
    let Some(Object::Way { nodes, tags }) = objects.object_of(Key::new(Kind::Way, id)) else {
        return Ok(());
    };
    let Some(value) = tags.get(key) else {
        return Ok(());
    };
    match line_of(alloc, objects, nodes.as_slice())? {
        Some(places) => push_text_row(out, id, value, &Geometry::Line(places)),
        None => Ok(()),
    }
}
