//! What all histories share: a style with each kind of table, whose selection reaches ways and nodes, and boundaries.

use std::alloc::{AllocError, Global};
use style_read::{Style, read_style};
use tile_cover::{Bounds, read_bounds};

/// The bytes of the style.
pub const STYLE: &str = "
select = [{ name = 'bus', where = ['type=route', 'route=bus'], take = 'ref' }]
table = [
  { name = 'cafes', source = 'node', geometry = 'point', where = ['amenity=cafe'], column = [{ name = 'name', from = 'tag:name' }] },
  { name = 'roads', source = 'way', geometry = 'line', where = ['highway'], column = [{ name = 'lanes', from = 'tag:lanes', type = 'int' }, { name = 'buses', from = 'selected:bus' }] },
  { name = 'areas', source = 'area', geometry = 'polygon', any = ['landuse', 'type=multipolygon'], expire = 'full-area', column = [{ name = 'tags', from = 'tags' }] },
  { name = 'trails', source = 'relation', geometry = 'lines', where = ['type=route'] },
  { name = 'stops', source = 'node', geometry = 'point', where = ['selected:bus'], column = [{ name = 'name', from = 'tag:name' }, { name = 'lines', from = 'selected:bus' }] },
]
";

/// The boundaries of zoom 2.
const BOUNDS: &str = "850511288\n665132604\n0\n-665132604\n-850511288\n";

/// The style and the boundaries.
#[derive(Drop)]
pub struct Rules {
    pub style: Style,
    pub bounds: Bounds,
}

/// How a store is imported.
#[derive(Clone, Copy)]
pub struct Setting<'a> {
    pub style: &'a str,
    pub buckets: u64,
    pub workers: u32,
}

/// The rules of all histories.
pub fn rules_of_all(alloc: Global) -> Result<Rules, AllocError> {
    let Ok(style) = read_style(alloc, STYLE.as_bytes()) else {
        return Err(AllocError);
    };
    match read_bounds(alloc, BOUNDS.as_bytes()) {
        Ok(bounds) => Ok(Rules { style, bounds }),
        Err(_) => Err(AllocError),
    }
}
