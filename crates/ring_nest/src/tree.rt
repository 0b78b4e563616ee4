//! A tree of boxes around rings: those around a place are found by few steps, however many rings there are.
ghost use Rattle.std.specs.Prelude.{◌≡◌, ◌≤◌, ◌<◌, ◌++◌, ◌∷◌, [], ◌/◌, length, map, IfOk, OnOk};
ghost use Rattle.std.specs.List.{AllByRecursion, filter};
ghost use Rattle.std.specs.List.Sorted.{IsPermutation};
ghost use Rattle.lanes_geo.specs.Box.{meets};
ghost use Rattle.lanes_geo.specs.Nesting.{ring_at};
ghost use Rattle.ring_nest.specs.Around.{IsBoxed, around, is_well_within as is_well_within_box, may_hold as box_may_hold, start};
ghost use Rattle.ring_nest.specs.Holders.{IsAsked, IsLeaf, IsTree, box_of_tree, is_holder, numbers_of};

use crate::boxes::{box_around_all, box_of_place, widened};
use crate::rings::holds;
use lanes_geo::{boxes_meet, is_met};
use osm_base::{GeoBox, OutOfMemory, Place, Places};
use std::alloc::Global;

/// How many rings a leaf has at most.
pub(crate) const LEAF: usize = 16;

/// The numbers of a few rings, with their boxes and a box around these.
#[derive(Drop)]
pub(crate) struct Leaf {
    around: GeoBox,
    numbers: Vec<usize>,
    boxes: Vec<GeoBox>,
}

/// The numbers of rings in halves, down to a few, with a box around the rings of each half.
#[derive(Drop)]
pub(crate) enum Tree {
    Few(Leaf),
    Halves(GeoBox, Box<Tree>, Box<Tree>),
}

/// The box around the rings of a tree.
fn around_of(tree: &Tree) -> GeoBox
    ensures { result ≡ box_of_tree tree.now }
{
    match tree {
        Tree::Few(leaf) => leaf.around,
        Tree::Halves(around, _, _) => *around,
    }
}

/// The leaf of a few boxes with these numbers.
fn leaf_of(alloc: Global, boxes: &[GeoBox], numbers: Vec<usize>) -> Result<Leaf, OutOfMemory>
    requires few { length numbers.items ≤ LEAF }
    requires within { AllByRecursion (λ number. number < length boxes.now) numbers.items }
    ensures numbers { IfOk result (λ leaf. leaf.numbers.items ≡ numbers.items) }
    ensures is_leaf { IfOk result (λ leaf. IsLeaf boxes.now leaf) }
{
    let mut own_boxes = Vec::with_capacity(alloc, numbers.len())?;
    for number in &numbers {
        own_boxes.push(boxes[*number])?;
    }
    let around = box_around_all(&own_boxes);
    Ok(Leaf {
        around,
        numbers,
        boxes: own_boxes,
    })
}

/// The west or the south side of the box with a number.
fn side_of(boxes: &[GeoBox], number: usize, is_west: bool) -> i32 {
    let Some(around) = boxes.get(number) else {
        return 0;
    };
    if is_west {
        return around.west;
    }
    around.south
}

/// Whether the west sides of the boxes with these numbers lie farther apart than their south sides.
/// Either answer is right, and so is any side: they only tell which half a number goes to.
fn is_wide(boxes: &[GeoBox], numbers: &[usize]) -> bool {
    let mut west = i32::MAX;
    let mut south = i32::MAX;
    let mut east = i32::MIN;
    let mut north = i32::MIN;
    for number in numbers {
        let lon = side_of(boxes, *number, true);
        let lat = side_of(boxes, *number, false);
        west = west.min(lon);
        south = south.min(lat);
        east = east.max(lon);
        north = north.max(lat);
    }
    i64::from(east) - i64::from(west) > i64::from(north) - i64::from(south)
}

/// The numbers of boxes in two halves: those with the lesser sides, and those with the greater ones.
fn halves_of(
    alloc: Global,
    boxes: &[GeoBox],
    numbers: Vec<usize>,
) -> Result<(Vec<usize>, Vec<usize>), OutOfMemory>
    requires { 0 < length numbers.items }
    ensures same { IfOk result (λ (front, back). IsPermutation numbers.items (front.items ++ back.items)) }
    ensures half { IfOk result (λ (front, back). length front.items ≡ length numbers.items / 2) }
{
    let mut numbers = numbers;
    let middle = numbers.len() / 2;
    let is_wide = is_wide(boxes, &numbers);
    let (lesser, one, greater) = numbers.select_nth_unstable_by_key(
        middle,
        |number: &usize| side_of(boxes, *number, is_wide),
    );
    let mut front = Vec::with_capacity(alloc, middle)?;
    front.extend_from_slice(lesser)?;
    let mut back = Vec::with_capacity(alloc, middle + 1)?;
    back.push(*one)?;
    back.extend_from_slice(greater)?;
    Ok((front, back))
}

/// The tree of the boxes with these numbers, in an order in which each half has neighbours.
pub(crate) fn tree_of(
    alloc: Global,
    boxes: &[GeoBox],
    numbers: Vec<usize>,
) -> Result<Tree, OutOfMemory>
    requires within { AllByRecursion (λ number. number < length boxes.now) numbers.items }
    ensures numbers { IfOk result (λ tree. IsPermutation numbers.items (numbers_of tree)) }
    ensures is_tree { IfOk result (λ tree. IsTree boxes.now tree) }
{
    if numbers.len() <= LEAF {
        return Ok(Tree::Few(leaf_of(alloc, boxes, numbers)?));
    }
    let (front, back) = halves_of(alloc, boxes, numbers)?;
    let left = tree_of(alloc, boxes, front)?;
    let right = tree_of(alloc, boxes, back)?;
    let around = widened(around_of(&left), around_of(&right));
    Ok(Tree::Halves(around, Box::new(alloc, left)?, Box::new(alloc, right)?))
}

/// Adds the number of a ring, whose box is told, where it holds the asked one. It is told whether that begins in its box; no
/// ring holds itself.
fn add_if_holder(
    is_met: bool,
    rings: &[Places],
    other: usize,
    other_box: GeoBox,
    number: usize,
    found: &mut Vec<usize>,
) -> Result<(), OutOfMemory>
    requires boxed { AllByRecursion IsBoxed rings.now }
    requires other { other < length rings.now }
    requires own { other_box ≡ around (ring_at rings.now other) }
    requires number { number < length rings.now }
    requires met { is_met ≡ meets (start (ring_at rings.now number)) (around (ring_at rings.now other)) }
    ensures { OnOk result (found.new.items ≡ found.old.items ++ filter (is_holder rings.now (ring_at rings.now number)) (other ∷ [])) }
{
    if !is_met {
        return Ok(());
    }
    if other == number {
        return Ok(());
    }
    if holds(rings[other].as_slice(), other_box, rings[number].as_slice()) {
        found.push(other)?;
        Ok(())
    } else {
        Ok(())
    }
}

/// Adds the numbers of a leaf's rings that hold a ring. Those in whose boxes it does not begin are passed over.
/// Not inlined, so that the walk to the leaf stays short.
#[inline(never)]
fn add_of_leaf(
    leaf: &Leaf,
    rings: &[Places],
    number: usize,
    asked: GeoBox,
    mask: &mut [bool; LEAF],
    found: &mut Vec<usize>,
) -> Result<(), OutOfMemory>
    requires is_leaf { IsLeaf (map around rings.now) leaf.now }
    requires asked { IsAsked rings.now number asked }
    ensures { OnOk result (found.new.items ≡ found.old.items ++ filter (is_holder rings.now (ring_at rings.now number)) leaf.now.numbers.items) }
{
    let (marks, _) = mask.split_at_mut(leaf.boxes.len());
    boxes_meet(&leaf.boxes, asked, marks);
    let mut at = 0;
    while leaf.numbers.len() - at > 0 {
        add_if_holder(
            marks[at],
            rings,
            leaf.numbers[at],
            leaf.boxes[at],
            number,
            found,
        )?;
        at += 1;
    }
    Ok(())
}

/// Whether a place lies in a box, and not on its west, its east or its north side.
fn is_well_within(around: GeoBox, place: Place) -> bool
    ensures { result ≡ is_well_within_box around place }
{
    let across = (around.west < place.lon) & (place.lon < around.east);
    let along = (around.south <= place.lat) & (place.lat < around.north);
    across & along
}

/// Whether a ring in this box may hold another one. It may not where that begins on a side of the box or beyond it, so that the first
/// place is within no such ring, and goes on outside the box, so that the second place is in none.
fn may_hold(around: GeoBox, ring: &[Place]) -> bool
    ensures { result ≡ box_may_hold around ring.now }
{
    match ring {
        [] => false,
        [first] => is_well_within(around, *first),
        [first, second, ..] => {
            is_met(box_of_place(*second), around) || is_well_within(around, *first)
        }
    }
}

/// Adds the numbers of a tree's rings that hold a ring. What lies in a box in which no ring may hold it is passed over.
pub(crate) fn add_holders(
    tree: &Tree,
    rings: &[Places],
    number: usize,
    asked: GeoBox,
    mask: &mut [bool; LEAF],
    found: &mut Vec<usize>,
) -> Result<(), OutOfMemory>
    requires is_tree { IsTree (map around rings.now) tree.now }
    requires asked { IsAsked rings.now number asked }
    ensures { OnOk result (found.new.items ≡ found.old.items ++ filter (is_holder rings.now (ring_at rings.now number)) (numbers_of tree.now)) }
{
    if !may_hold(around_of(tree), rings[number].as_slice()) {
        return Ok(());
    }
    match tree {
        Tree::Few(leaf) => add_of_leaf(leaf, rings, number, asked, mask, found),
        Tree::Halves(_, left, right) => {
            add_holders(left, rings, number, asked, mask, found)?;
            add_holders(right, rings, number, asked, mask, found)?;
            Ok(())
        }
    }
}
