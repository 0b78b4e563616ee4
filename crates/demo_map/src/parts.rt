//! The parts of the map and of its changes, each of all squares in order.
ghost use Rattle.std.specs.Prelude.{◌≡◌, ◌+◌, ◌*◌, ◌<◌, ◌≤◌, ◌++◌, ◌∷◌, [], None, OnOk, IfOk, flat_map};
ghost use Rattle.osm_base.specs.values.Key.{node_key};
ghost use Rattle.object_fold.specs.Change.{Follows, last_key};
ghost use Rattle.demo_map.specs.Demo.{node_at, nodes_of, squares as squares_of};
ghost use Rattle.demo_map.specs.Parts.{entry_of, first_of, made_by, made_of, takes_square};

use crate::entries::{gone_of, moved_of, node_at, place_in, route_of, way_of};
use crate::squares::{MAX_SQUARES, Squares};
use object_fold::{Change, Keeper};
use osm_base::{Entry, OutOfMemory, Place, Tags};
use std::alloc::Global;

/// What there is of each square of a map, or of each tenth, by rising keys.
#[derive(Clone, Copy)]
pub(crate) enum Part {
    Ways,
    /// Of each tenth square.
    Routes,
    /// The third corner of each tenth square.
    Moved,
    /// The first corner of each tenth square.
    Gone,
}

/// Keeps the entries of all squares.
pub(crate) fn keep_part(
    alloc: Global,
    part: Part,
    squares: Squares,
    change: &mut Change,
) -> Result<(), OutOfMemory>
    requires follows { Follows (last_key None change.old) (first_of part 0) }
    ensures ok { OnOk result (change.new ≡ change.old ++ made_by part squares.count (squares_of squares.count)) }
    ensures next { OnOk result (Follows (last_key None change.new) (first_of part squares.count)) }
{
    for square in 0..squares.count {
        keep_of(alloc, part, squares, square, change)?;
    }
    Ok(())
}

/// Keeps the entry of a square, where it has one.
fn keep_of(
    alloc: Global,
    part: Part,
    squares: Squares,
    square: u32,
    change: &mut Change,
) -> Result<(), OutOfMemory>
    requires there { square < squares.count }
    requires follows { Follows (last_key None change.old) (first_of part square) }
    ensures ok { OnOk result (change.new ≡ change.old ++ made_of part squares.count square) }
    ensures next { OnOk result (Follows (last_key None change.new) (first_of part (square + 1))) }
{
    if !takes_square(part, square) {
        return Ok(());
    }
    let entry = entry_of(alloc, part, squares, square)?;
    change.keep(entry)?;
    Ok(())
}

/// The entry of a square.
#[tactic(auto, unfolding(crate::specs::Parts::entry_of))]
fn entry_of(alloc: Global, part: Part, squares: Squares, square: u32) -> Result<Entry, OutOfMemory>
    requires there { square < squares.count }
    ensures entry { IfOk result (λ entry. entry ≡ entry_of part squares.count square) }
{
    match part {
        Part::Ways => way_of(alloc, square),
        Part::Routes => route_of(alloc, squares, square),
        Part::Moved => Ok(moved_of(alloc, square)),
        Part::Gone => Ok(gone_of(square)),
    }
}

/// Whether a square has an entry.
fn takes_square(part: Part, square: u32) -> bool
    ensures takes { result ≡ takes_square part square }
{
    match part {
        Part::Ways => true,
        Part::Routes | Part::Moved | Part::Gone => square % 10 == 0,
    }
}

/// Keeps the nodes of all squares.
pub(crate) fn keep_all_nodes(
    alloc: Global,
    squares: Squares,
    change: &mut Change,
) -> Result<(), OutOfMemory>
    requires follows { Follows (last_key None change.old) (node_key 1) }
    ensures ok { OnOk result (change.new ≡ change.old ++ flat_map nodes_of (squares_of squares.count)) }
    ensures next { OnOk result (Follows (last_key None change.new) (node_key (4 * squares.count + 1))) }
{
    for square in 0..squares.count {
        keep_nodes(alloc, square, change)?;
    }
    Ok(())
}

/// Keeps the four nodes of a square.
fn keep_nodes(alloc: Global, square: u32, change: &mut Change) -> Result<(), OutOfMemory>
    requires few { square < MAX_SQUARES }
    requires follows { Follows (last_key None change.old) (node_key (4 * square + 1)) }
    ensures ok { OnOk result (change.new ≡ change.old ++ nodes_of square) }
    ensures next { OnOk result (Follows (last_key None change.new) (node_key (4 * square + 5))) }
{
    let before = 4 * u64::from(square);
    let cafe = Tags::one(alloc, "amenity", "cafe")?;
    keep_node(change, before + 1, place_in(square, 0, 0), cafe)?;
    keep_node(
        change,
        before + 2,
        place_in(square, 10_000, 0),
        Tags::new(alloc),
    )?;
    keep_node(
        change,
        before + 3,
        place_in(square, 10_000, 10_000),
        Tags::new(alloc),
    )?;
    keep_node(
        change,
        before + 4,
        place_in(square, 0, 10_000),
        Tags::new(alloc),
    )?;
    Ok(())
}

/// Keeps a node, behind which the node with the next id may come.
fn keep_node(change: &mut Change, id: u64, place: Place, tags: Tags) -> Result<(), OutOfMemory>
    requires id { 1 ≤ id }
    requires few { id ≤ 4 * MAX_SQUARES }
    requires follows { Follows (last_key None change.old) (node_key id) }
    ensures ok { OnOk result (change.new ≡ change.old ++ node_at id place tags ∷ []) }
    ensures next { OnOk result (Follows (last_key None change.new) (node_key (id + 1))) }
{
    change.keep(node_at(id, place, tags))
}
