//! A tree of boxes by their spots.
ghost use Rattle.std.specs.Prelude.{◌≡◌, IfOk, OnOk, OnErr};
ghost use Rattle.std.specs.FinMap as map;
ghost use Rattle.grid_index.specs.Grid.{boxes_in};

use osm_base::{GeoBox, OutOfMemory, Spot};
use std::collections::BTreeMap;

/// The box at a spot.
pub(crate) fn box_at(boxes: &BTreeMap<Spot, GeoBox>, spot: Spot) -> Option<GeoBox>
    ensures at { result ≡ map.get (boxes_in boxes.now) spot }
{
    boxes.get(&spot).copied()
}

/// Gives a spot this box, and says which one it had. After `Err` the boxes are as before.
pub(crate) fn set_box(
    boxes: &mut BTreeMap<Spot, GeoBox>,
    spot: Spot,
    around: GeoBox,
) -> Result<Option<GeoBox>, OutOfMemory>
    ensures ok { OnOk result (boxes_in boxes.new ≡ map.insert (boxes_in boxes.old) spot around) }
    ensures before { IfOk result (λ before. before ≡ map.get (boxes_in boxes.old) spot) }
    ensures err { OnErr result (boxes_in boxes.new ≡ boxes_in boxes.old) }
{
    let before = box_at(boxes, spot);
    boxes.insert(spot, around)?;
    Ok(before)
}

/// Takes the box of a spot away, and says which one it was.
pub(crate) fn drop_box(boxes: &mut BTreeMap<Spot, GeoBox>, spot: Spot) -> Option<GeoBox>
    ensures gone { boxes_in boxes.new ≡ map.remove (boxes_in boxes.old) spot }
    ensures before { result ≡ map.get (boxes_in boxes.old) spot }
{
    let before = box_at(boxes, spot);
    boxes.remove(&spot);
    before
}
