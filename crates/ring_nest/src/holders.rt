//! The rings that hold each ring, and what follows from them: its depth, and the ring that it belongs to.
ghost use Rattle.std.specs.Prelude.{◌≡◌, ◌<◌, ◌%◌, length, map, IfOk, IfSome};
ghost use Rattle.std.specs.List.{AllByRecursion, range_with_len};
ghost use Rattle.lanes_geo.specs.Nesting.{depth as depth_of_ring, ring_at};
ghost use Rattle.ring_nest.specs.Holders.{HoldsAll, IsLeast, KeepsHolders, few_of as few_of_list, holders_in, inner_owner, is_above};
ghost use Rattle.ring_nest.specs.Told.{IsKnown};

use crate::asked::Asked;
use crate::boxed::BoxedRings;
use crate::boxes::start_of;
use crate::known::{Known, known_of};
use crate::owners::{lesser, owners_by_depth};
use crate::ring_tree::RingTree;
use crate::told::told_depth;
use crate::tree::{LEAF, Tree, add_holders, tree_of};
use osm_base::{Items, OutOfMemory};
use std::alloc::Global;

/// The holders of a ring are kept where they are no more than these. Those of a deeper ring are looked for again when they are
/// asked for, so that all that is kept grows with the rings alone, however many hold each other.
pub(crate) const FEW: usize = 8;

/// Of no more rings than these the edges are not asked: to look at each holder costs less.
const MANY: usize = 64;

/// How many rings, at equal distances, tell whether many rings hold each other.
const SAMPLES: usize = 16;

/// The rings that hold each ring: how many, and which where they are few.
#[derive(Drop)]
pub(crate) struct Holders {
    depths: Vec<usize>,
    few: Vec<Option<Items<usize>>>,
}

/// The numbers below another one, in order.
fn numbers_below(alloc: Global, count: usize) -> Result<Vec<usize>, OutOfMemory>
    ensures { IfOk result (λ numbers. numbers.items ≡ range_with_len 0 count) }
{
    let mut numbers = Vec::with_capacity(alloc, count)?;
    for number in 0..count {
        numbers.push(number)?;
    }
    Ok(numbers)
}

/// The tree of all rings.
fn tree_of_all(alloc: Global, boxed: &BoxedRings) -> Result<Tree, OutOfMemory>
    ensures { IfOk result (HoldsAll boxed.now.rings.now) }
{
    let numbers = numbers_below(alloc, boxed.rings.len())?;
    tree_of(alloc, boxed.boxes, numbers)
}

/// The numbers of the rings that hold a ring.
fn holders_of(
    alloc: Global,
    tree: &RingTree,
    number: usize,
    mask: &mut [bool; LEAF],
) -> Result<Vec<usize>, OutOfMemory>
    requires within { number < length tree.now.rings.now }
    ensures holders { IfOk result (λ holders. holders.items ≡ holders_in tree.now.rings.now tree.now.root.now (ring_at tree.now.rings.now number)) }
{
    let asked = start_of(tree.rings[number].as_slice());
    let mut found = Vec::new(alloc);
    add_holders(tree.root, tree.rings, number, asked, mask, &mut found)?;
    Ok(found)
}

/// Holders where they are few enough to be kept.
fn few_of(holders: Vec<usize>) -> Option<Items<usize>>
    ensures { result ≡ few_of_list holders.items }
{
    if holders.len() <= FEW {
        Some(Items::from_vec(holders))
    } else {
        None
    }
}

/// The holders of each ring.
fn holders_of_each(alloc: Global, tree: &RingTree) -> Result<Holders, OutOfMemory>
    ensures { IfOk result (KeepsHolders tree.now.rings.now tree.now.root.now) }
{
    let rings = tree.rings;
    let mut mask = [false; LEAF];
    let mut depths = Vec::with_capacity(alloc, rings.len())?;
    let mut few = Vec::with_capacity(alloc, rings.len())?;
    let mut at = 0;
    while rings.len() - at > 0 {
        let holders = holders_of(alloc, tree, at, &mut mask)?;
        depths.push(holders.len())?;
        few.push(few_of(holders))?;
        at += 1;
    }
    Ok(Holders { depths, few })
}

/// The ring that a ring belongs to, if it is an inner one and belongs to one.
fn owner_at(
    alloc: Global,
    tree: &RingTree,
    holders: &Holders,
    at: usize,
    mask: &mut [bool; LEAF],
) -> Result<Option<usize>, OutOfMemory>
    requires within { at < length tree.now.rings.now }
    requires holders { KeepsHolders tree.now.rings.now tree.now.root.now holders.now }
    ensures owner { IfOk result (λ owner. owner ≡ inner_owner tree.now.rings.now (ring_at tree.now.rings.now at)) }
{
    let depth = holders.depths[at];
    if depth % 2 == 0 {
        return Ok(None);
    }
    if let Some(few) = &holders.few[at] {
        return Ok(owner_of(few.as_slice(), &holders.depths, depth));
    }
    let all = holders_of(alloc, tree, at, mask)?;
    Ok(owner_of(&all, &holders.depths, depth))
}

/// The ring that each inner ring belongs to.
fn owners_of(
    alloc: Global,
    tree: &RingTree,
    holders: &Holders,
) -> Result<Vec<Option<usize>>, OutOfMemory>
    requires holders { KeepsHolders tree.now.rings.now tree.now.root.now holders.now }
    ensures { IfOk result (λ owners. owners.items ≡ map (inner_owner tree.now.rings.now) tree.now.rings.now) }
{
    let rings = tree.rings;
    let mut mask = [false; LEAF];
    let mut owners = Vec::with_capacity(alloc, rings.len())?;
    let mut at = 0;
    while rings.len() - at > 0 {
        owners.push(owner_at(alloc, tree, holders, at, &mut mask)?)?;
        at += 1;
    }
    Ok(owners)
}

/// Whether a quarter of some rings have more holders than are kept. Either answer is right: it only tells which way is shorter.
fn are_deep(alloc: Global, tree: &RingTree) -> Result<bool, OutOfMemory> {
    let rings = tree.rings;
    let mut mask = [false; LEAF];
    let step = rings.len() / SAMPLES + 1;
    let mut deep = 0_usize;
    let mut at = 0;
    while at < rings.len() {
        if holders_of(alloc, tree, at, &mut mask)?.len() > FEW {
            deep = deep.saturating_add(1);
        }
        at = at.saturating_add(step);
    }
    Ok(deep > SAMPLES / 4)
}

/// The depth of a ring: as it is told by the edges, or else by the rings that hold it.
fn depth_at(
    alloc: Global,
    known: &Known,
    tree: &RingTree,
    number: usize,
    mask: &mut [bool; LEAF],
) -> Result<usize, OutOfMemory>
    requires known { IsKnown tree.now.rings.now known.now }
    requires within { number < length tree.now.rings.now }
    ensures depth { IfOk result (λ depth. depth ≡ depth_of_ring tree.now.rings.now (ring_at tree.now.rings.now number)) }
{
    let rings = tree.rings;
    let asked = Asked {
        known,
        rings,
        number,
    };
    if let Some(depth) = told_depth(alloc, &asked, mask)? {
        return Ok(depth);
    }
    Ok(holders_of(alloc, tree, number, mask)?.len())
}

/// The depth of each ring.
fn depths_of(alloc: Global, known: &Known, tree: &RingTree) -> Result<Vec<usize>, OutOfMemory>
    requires known { IsKnown tree.now.rings.now known.now }
    ensures { IfOk result (λ depths. depths.items ≡ map (depth_of_ring tree.now.rings.now) tree.now.rings.now) }
{
    let rings = tree.rings;
    let mut mask = [false; LEAF];
    let mut depths = Vec::with_capacity(alloc, rings.len())?;
    let mut at = 0;
    while rings.len() - at > 0 {
        depths.push(depth_at(alloc, known, tree, at, &mut mask)?)?;
        at += 1;
    }
    Ok(depths)
}

/// The depth of each ring by the edges, where they are known. What they are kept in is let go, since what comes behind takes room too.
fn told_depths(
    alloc: Global,
    root: &Tree,
    boxed: &BoxedRings,
) -> Result<Option<Vec<usize>>, OutOfMemory>
    requires root { HoldsAll boxed.now.rings.now root.now }
    ensures { IfOk result (λ told. IfSome told (λ depths. depths.items ≡ map (depth_of_ring boxed.now.rings.now) boxed.now.rings.now)) }
{
    let tree = RingTree {
        rings: boxed.rings,
        root,
    };
    match known_of(alloc, boxed)? {
        Some(known) => Ok(Some(depths_of(alloc, &known, &tree)?)),
        None => Ok(None),
    }
}

/// The depth of each ring, and the ring that each inner one belongs to.
pub(crate) fn depths_and_owners(
    alloc: Global,
    boxed: &BoxedRings,
) -> Result<(Vec<usize>, Vec<Option<usize>>), OutOfMemory>
    ensures depths { IfOk result (λ (depths, owners). depths.items ≡ map (depth_of_ring boxed.now.rings.now) boxed.now.rings.now) }
    ensures owners { IfOk result (λ (depths, owners). owners.items ≡ map (inner_owner boxed.now.rings.now) boxed.now.rings.now) }
{
    let root = tree_of_all(alloc, boxed)?;
    let tree = RingTree {
        rings: boxed.rings,
        root: &root,
    };
    if tree.rings.len() > MANY && are_deep(alloc, &tree)? {
        if let Some(depths) = told_depths(alloc, &root, boxed)? {
            let owners = owners_by_depth(alloc, boxed, &depths)?;
            return Ok((depths, owners));
        }
    }
    let holders = holders_of_each(alloc, &tree)?;
    let owners = owners_of(alloc, &tree, &holders)?;
    let Holders { depths, .. } = holders;
    Ok((depths, owners))
}

/// The least number of the rings that hold a ring and have a depth one less.
fn owner_of(holders: &[usize], depths: &[usize], depth: usize) -> Option<usize>
    requires within { AllByRecursion (λ number. number < length depths.now) holders.now }
    requires held { 0 < depth }
    ensures { IsLeast (is_above depths.now depth) holders.now result }
{
    let mut owner = None;
    for number in holders {
        if depths[*number] == depth - 1 {
            owner = Some(lesser(owner, *number));
        }
    }
    owner
}
