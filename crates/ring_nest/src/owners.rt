//! The ring that each inner ring belongs to, by trees of the rings of one depth alone, so that the rings that hold a ring
//! and lie farther out cost nothing.
ghost use Rattle.std.specs.Prelude.{◌≡◌, ◌<◌, ◌+◌, ◌++◌, ◌∷◌, [], ℕ, true, length, map, replicate, IfOk, OnOk, slice_index_or, slice_set};
ghost use Rattle.std.specs.List.{AllByRecursion};
ghost use Rattle.lanes_geo.specs.Nesting.{depth as depth_of_ring, ring_at};
ghost use Rattle.ring_nest.specs.Holders.{IsLeast, inner_owner, lesser_of};
ghost use Rattle.ring_nest.specs.DepthTrees.{HasLists, HasTrees, HoldsDepths, IsTreeOf};

use crate::boxed::BoxedRings;
use crate::boxes::start_of;
use crate::deep::DeepRings;
use crate::tree::{LEAF, Tree, add_holders, tree_of};
use osm_base::{GeoBox, Items, OutOfMemory};
use std::alloc::Global;

/// Empty lists.
fn empty_lists(alloc: Global, count: usize) -> Result<Vec<Items<usize>>, OutOfMemory>
    ensures { IfOk result (λ lists. lists.items ≡ replicate count []) }
{
    let mut lists = Vec::with_capacity(alloc, count)?;
    for _number in 0..count {
        lists.push(Items::new(alloc))?;
    }
    Ok(lists)
}

/// Adds a number to the list of a depth.
fn add_number(lists: &mut Vec<Items<usize>>, depth: usize, number: usize) -> Result<(), OutOfMemory>
    requires { depth < length lists.old.items }
    ensures { OnOk result (lists.new.items ≡ slice_set lists.old.items depth (slice_index_or lists.old.items depth [] ++ number ∷ [])) }
{
    let list = &mut lists[depth];
    list.push(number)?;
    Ok(())
}

/// The numbers of the rings of each depth. No ring is deeper than there are rings.
fn lists_of(alloc: Global, depths: &[usize]) -> Result<Vec<Items<usize>>, OutOfMemory>
    requires { AllByRecursion (λ depth. depth < length depths.now + 1) depths.now }
    ensures { IfOk result (λ lists. HasLists depths.now (length depths.now) lists.items) }
{
    let mut lists = empty_lists(alloc, depths.len() + 1)?;
    let mut at = 0;
    while depths.len() - at > 0 {
        add_number(&mut lists, depths[at], at)?;
        at += 1;
    }
    Ok(lists)
}

/// The tree of the boxes with the numbers of a list.
fn tree_at(
    alloc: Global,
    boxes: &[GeoBox],
    lists: &[Items<usize>],
    at: usize,
) -> Result<Tree, OutOfMemory>
    requires at { at < length lists.now }
    requires within { AllByRecursion (λ number. number < length boxes.now) (slice_index_or lists.now at []) }
    ensures { IfOk result (λ tree. IsTreeOf boxes.now (slice_index_or lists.now at []) tree) }
{
    let numbers = Vec::from_slice(alloc, lists[at].as_slice())?;
    tree_of(alloc, boxes, numbers)
}

/// The tree of each list of numbers of boxes.
fn trees_of(
    alloc: Global,
    boxes: &[GeoBox],
    lists: &[Items<usize>],
) -> Result<Vec<Tree>, OutOfMemory>
    requires within { (at : ℕ) → at < length lists.now → AllByRecursion (λ number. number < length boxes.now) (slice_index_or lists.now at []) }
    ensures { IfOk result (λ trees. HasTrees boxes.now lists.now (length lists.now) trees.items) }
{
    let mut trees = Vec::with_capacity(alloc, lists.len())?;
    let mut at = 0;
    while lists.len() - at > 0 {
        trees.push(tree_at(alloc, boxes, lists, at)?)?;
        at += 1;
    }
    Ok(trees)
}

/// The tree of the rings of each depth.
fn trees_by_depth(
    alloc: Global,
    boxed: &BoxedRings,
    depths: &[usize],
) -> Result<Vec<Tree>, OutOfMemory>
    requires depths { depths.now ≡ map (depth_of_ring boxed.now.rings.now) boxed.now.rings.now }
    ensures { IfOk result (λ trees. HoldsDepths boxed.now.rings.now depths.now trees.items) }
{
    let lists = lists_of(alloc, depths)?;
    trees_of(alloc, boxed.boxes, &lists)
}

/// The lesser of a number so far, if there is one, and another one.
pub(crate) fn lesser(so_far: Option<usize>, number: usize) -> usize
    ensures { result ≡ lesser_of so_far number }
{
    match so_far {
        None => number,
        Some(least) => { if number < least { number } else { least } }
    }
}

/// The least of some numbers.
fn least_of(numbers: &[usize]) -> Option<usize>
    ensures { IsLeast (λ _. true) numbers.now result }
{
    let mut least = None;
    for number in numbers {
        least = Some(lesser(least, *number));
    }
    least
}

/// The tree with a number.
fn tree_with(trees: &[Tree], number: usize) -> &Tree
    requires { number < length trees.now }
    ensures { result.now ≡ slice_index_or trees.now number result.now }
{
    &trees[number]
}

/// The ring that a ring belongs to, if it is an inner one and belongs to one.
fn owner_at(
    alloc: Global,
    trees: &[Tree],
    deep: &DeepRings,
    at: usize,
    mask: &mut [bool; LEAF],
) -> Result<Option<usize>, OutOfMemory>
    requires trees { HoldsDepths deep.now.rings.now deep.now.depths.now trees.now }
    requires within { at < length deep.now.rings.now }
    ensures owner { IfOk result (λ owner. owner ≡ inner_owner deep.now.rings.now (ring_at deep.now.rings.now at)) }
{
    let depth = deep.depths[at];
    if depth % 2 == 0 {
        return Ok(None);
    }
    let asked = start_of(deep.rings[at].as_slice());
    let mut found = Vec::new(alloc);
    add_holders(
        tree_with(trees, depth - 1),
        deep.rings,
        at,
        asked,
        mask,
        &mut found,
    )?;
    Ok(least_of(&found))
}

/// The ring that each inner ring belongs to.
pub(crate) fn owners_by_depth(
    alloc: Global,
    boxed: &BoxedRings,
    depths: &[usize],
) -> Result<Vec<Option<usize>>, OutOfMemory>
    requires depths { depths.now ≡ map (depth_of_ring boxed.now.rings.now) boxed.now.rings.now }
    ensures { IfOk result (λ owners. owners.items ≡ map (inner_owner boxed.now.rings.now) boxed.now.rings.now) }
{
    let rings = boxed.rings;
    let deep = DeepRings { rings, depths };
    let trees = trees_by_depth(alloc, boxed, depths)?;
    let mut mask = [false; LEAF];
    let mut owners = Vec::with_capacity(alloc, rings.len())?;
    let mut at = 0;
    while rings.len() - at > 0 {
        owners.push(owner_at(alloc, &trees, &deep, at, &mut mask)?)?;
        at += 1;
    }
    Ok(owners)
}
