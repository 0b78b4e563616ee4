//! The style and the boundary table of the map.
ghost use Rattle.std.specs.Prelude.{◌≡◌, Ok, IfOk};
ghost use Rattle.style_read.specs.Reading.{reading};
ghost use Rattle.demo_map.specs.Style as demo;

use osm_base::{Bytes, OutOfMemory};
use std::alloc::Global;
use style_read::{Style, StyleFault, read_style};
use tile_cover::{Bounds, BoundsFault, read_bounds};

/// The style as an operator writes one.
const STYLE: &[u8] = b"\
[[select]]
name = \"all\"
where = [\"type=route\"]
take = \"ref\"

[[table]]
name = \"cafes\"
source = \"node\"
geometry = \"point\"
where = [\"amenity=cafe\"]

[[table]]
name = \"buildings\"
source = \"area\"
geometry = \"polygon\"
where = [\"building\"]
[[table.column]]
name = \"lines\"
from = \"selected:all\"

[[table]]
name = \"routes\"
source = \"relation\"
geometry = \"lines\"
where = [\"type=route\"]
";

/// The boundary table of zoom 2 as an operator writes one.
const BOUNDS: &[u8] = b"850511288\n665132604\n0\n-665132604\n-850511288\n";

/// The text of the style.
#[tactic(auto, unfolding(crate::specs::Style::DEMO_STYLE))]
fn style_text() -> &'static [u8]
    ensures text { result.now ≡ demo.DEMO_STYLE }
{
    STYLE
}

/// The style, and the bytes that write it.
#[derive(Drop)]
pub struct DemoStyle {
    pub style: Style,
    pub bytes: Bytes,
}

/// The style of the map.
pub fn demo_style(alloc: Global) -> Result<DemoStyle, OutOfMemory>
    ensures style { IfOk result (λ own. own.style ≡ demo.demo_style) }
    ensures bytes { IfOk result (λ own. own.bytes ≡ demo.DEMO_STYLE) }
    ensures read { IfOk result (λ own. reading own.bytes ≡ Ok own.style) }
{
    let style = known_style(alloc)?;
    let bytes = Vec::from_slice(alloc, style_text())?;
    Ok(DemoStyle {
        style,
        bytes: Bytes::from_vec(bytes),
    })
}

/// What the text of the style is read as; its text has no fault.
fn known_style(alloc: Global) -> Result<Style, OutOfMemory>
    ensures style { IfOk result (λ style. style ≡ demo.demo_style) }
{
    match read_style(alloc, style_text()) {
        Ok(style) => Ok(style),
        Err(StyleFault::Bad { .. }) => unreachable!(),
        Err(StyleFault::OutOfMemory) => Err(OutOfMemory),
    }
}

/// The text of the boundary table.
#[tactic(auto, unfolding(crate::specs::Style::DEMO_BOUNDS))]
fn bounds_text() -> &'static [u8]
    ensures text { result.now ≡ demo.DEMO_BOUNDS }
{
    BOUNDS
}

/// The boundary table of zoom 2.
pub fn demo_bounds(alloc: Global) -> Result<Bounds, OutOfMemory>
    ensures bounds { IfOk result (λ bounds. bounds ≡ demo.demo_bounds) }
{
    match read_bounds(alloc, bounds_text()) {
        Ok(bounds) => Ok(bounds),
        Err(BoundsFault::Bad { .. }) => unreachable!(),
        Err(BoundsFault::OutOfMemory) => Err(OutOfMemory),
    }
}
