//! The row of a node in the text of points.
ghost use Rattle.std.specs.Prelude.{◌≡◌, ◌++◌, OnOk};
ghost use Rattle.std.specs.Str.{chars};
ghost use Rattle.std.specs.String.{string_bytes};
ghost use Rattle.tag_rows.specs.Points.{tag_row};

use osm_base::{Entry, Geometry, Object, OutOfMemory};
use row_text::push_text_row;

/// Appends the row of an entry, where it is a node with a place and with the tag of this key.
#[tactic(auto, unfolding(crate::specs::Points::tag_row))]
pub fn push_point(out: &mut String, key: &str, entry: &Entry) -> Result<(), OutOfMemory>
    ensures row { OnOk result (string_bytes out.new ≡ string_bytes out.old ++ tag_row (chars key.now) entry.now) }
{
    let Some(
        Object::Node {
            place: Some(place),
            tags,
        },
    ) = &entry.object
    else {
        return Ok(());
    };
    let Some(value) = tags.get(key) else {
        return Ok(());
    };
    push_text_row(out, entry.key.id, value, &Geometry::Point(*place))
}
