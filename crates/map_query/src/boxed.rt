//! A row with its box.
ghost use Rattle.std.specs.Prelude.{◌≡◌};
ghost use Rattle.lanes_geo.specs.Box.{box_of};
ghost use Rattle.map_query.specs.Answer.{places_of};

use osm_base::{GeoBox, Key, Row};

/// A row with the key of its object and its box, if it has a place.
#[derive(Clone, Copy)]
pub struct BoxedRow<'t> {
    pub key: Key,
    pub row: &'t Row,
    pub around: Option<GeoBox>,
    ghost boxed: { around ≡ box_of (places_of row.now.geometry) },
}
