//! The pieces of a relation: the lines of its ways.
ghost use Rattle.std.specs.Prelude.{◌≡◌, IfOk, OnOk};
ghost use Rattle.piece_ends.specs.Pieces.{ArePieces};
ghost use Rattle.row_rules.specs.Shape as spec;
ghost use Rattle.row_map.specs.Seen.{AreSeen};

use line_build::line_of;
use osm_base::{Key, Kind, LineList, Lookup, Member, Object, OutOfMemory, Places};
use std::alloc::Global;
use std::collections::BTreeSet;

/// Adds the way that a member is, where it is one that is not there yet.
fn add_way(
    ways: &mut Vec<Key>,
    seen: &mut BTreeSet<u64>,
    member: &Member,
) -> Result<(), OutOfMemory>
    requires seen { AreSeen seen.old ways.old.items }
    ensures ways { OnOk result (ways.new.items ≡ spec.with_way ways.old.items member.now) }
    ensures seen { OnOk result (AreSeen seen.new ways.new.items) }
{
    if member.key.kind != Kind::Way {
        return Ok(());
    }
    if !seen.insert(member.key.id)? {
        return Ok(());
    }
    ways.push(member.key)?;
    Ok(())
}

/// The ways among members, each once, in the order of its first membership.
fn ways_among(alloc: Global, members: &[Member]) -> Result<Vec<Key>, OutOfMemory>
    ensures ways { IfOk result (λ ways. ways.items ≡ spec.ways_among members.now) }
{
    let mut ways = Vec::new(alloc);
    let mut seen = BTreeSet::new(alloc);
    for member in members {
        add_way(&mut ways, &mut seen, member)?;
    }
    Ok(ways)
}

/// The line of a way. `None`: there is no such way, or it has no line.
fn line_at<L: Lookup>(alloc: Global, lookup: &L, way: Key) -> Result<Option<Places>, OutOfMemory>
    ensures line { IfOk result (λ found. found ≡ spec.line_in (L.known lookup.now).place ((L.known lookup.now).object way)) }
{
    match lookup.object_of(way) {
        Some(Object::Way { nodes, .. }) => Ok(line_of(alloc, lookup, nodes.as_slice())?),
        _ => Ok(None),
    }
}

/// The lines of ways, those that have none left out.
fn lines_of<L: Lookup>(alloc: Global, lookup: &L, ways: &[Key]) -> Result<LineList, OutOfMemory>
    ensures lines { IfOk result (λ lines. lines ≡ spec.lines_along (L.known lookup.now).place (L.known lookup.now).object ways.now) }
{
    let mut lines = LineList::new(alloc);
    for &way in ways {
        if let Some(line) = line_at(alloc, lookup, way)? {
            lines.push(line)?;
        }
    }
    Ok(lines)
}

/// The pieces of a relation with these members.
pub(crate) fn pieces_of<L: Lookup>(
    alloc: Global,
    lookup: &L,
    members: &[Member],
) -> Result<LineList, OutOfMemory>
    ensures pieces { IfOk result (λ lines. lines ≡ spec.pieces (L.known lookup.now).place (L.known lookup.now).object members.now) }
    ensures are { IfOk result ArePieces }
{
    let ways = ways_among(alloc, members)?;
    Ok(lines_of(alloc, lookup, &ways)?)
}
