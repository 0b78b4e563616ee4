//! The rows of a table, in the order of their numbers.
ghost use Rattle.std.specs.Prelude.{◌≡◌, ◌↔◌, [], ◌∷◌, ◌++◌, length, map, IfOk, OnOk, IsTrue, T};
ghost use Rattle.std.specs.FinMap as finite;
ghost use Rattle.std.specs.FinMap.{is_sorted};
ghost use Rattle.std.specs.List.Sorted.{IsPermutation, IsSortedByKey};
ghost use Rattle.osm_base.specs.map.SpotTree.{rows_in};
ghost use Rattle.osm_base.specs.values.KeyOrder.{key_cmp};
ghost use Rattle.row_text.specs.Numbered.{by_number, HasEachOnce, IsBehind, IsInFront, key_of, rows_by_number, rows_of, seen};

use crate::row::signed_id;
use osm_base::{Key, Kind, MAX_ID, OutOfMemory, Row, Spot, Tables};
use std::alloc::Global;
use std::cmp::Ordering;
use std::collections::BTreeMap;
use std::ops::Bound;

/// A row of a table, with the key of its object.
#[derive(Clone, Copy)]
pub struct KeyedRow<'t> {
    pub key: Key,
    pub row: &'t Row,
}

/// The rows of a table by rising numbers; where two have one number, by rising keys.
pub(crate) fn rows_in_order<'t>(
    alloc: Global,
    of_areas: bool,
    tables: &'t Tables,
    table: u32,
) -> Result<Vec<KeyedRow<'t>>, OutOfMemory>
    ensures rows { IfOk result (λ rows. map seen rows.items ≡ rows_by_number of_areas tables.now table) }
{
    let mut rows = rows_of(alloc, tables.rows(), table)?;
    put_in_order(of_areas, &mut rows);
    Ok(rows)
}

/// The rows of a table by rising keys.
fn rows_of<'t>(
    alloc: Global,
    rows: &'t BTreeMap<Spot, Row>,
    table: u32,
) -> Result<Vec<KeyedRow<'t>>, OutOfMemory>
    ensures rows { IfOk result (λ found. map seen found.items ≡ rows_of (rows_in rows.now) table) }
{
    let mut found = Vec::new(alloc);
    for (spot, row) in rows.range((before(table), behind(table))) {
        if spot.table == table {
            push(&mut found, spot.key, row)?;
        }
    }
    Ok(found)
}

/// How many rows a table has.
pub fn count_rows(tables: &Tables, table: u32) -> usize
    ensures count { result ≡ length (rows_of tables.now table) }
{
    let mut count = 0;
    for (spot, _) in tables.rows().range((before(table), behind(table))) {
        if table == spot.table {
            count += 1;
        }
    }
    count
}

/// Adds a row.
fn push<'t>(rows: &mut Vec<KeyedRow<'t>>, key: Key, row: &'t Row) -> Result<(), OutOfMemory>
    ensures ok { OnOk result (map seen rows.new.items ≡ map seen rows.old.items ++ (key, row.now) ∷ []) }
{
    match rows.push(KeyedRow { key, row }) {
        Ok(()) => Ok(()),
        Err(_) => Err(OutOfMemory),
    }
}

/// A bound in front of the rows of a table.
fn before(table: u32) -> Bound<Spot>
    ensures front { IsInFront table result }
{
    match table.checked_sub(1) {
        Some(earlier) => Bound::Excluded(Spot {
            table: earlier,
            key: Key::new(Kind::Relation, MAX_ID),
        }),
        None => Bound::Unbounded,
    }
}

/// A bound behind the rows of a table.
fn behind(table: u32) -> Bound<Spot>
    ensures back { IsBehind table result }
{
    match table.checked_add(1) {
        Some(later) => Bound::Excluded(Spot {
            table: later,
            key: Key::new(Kind::Node, 1),
        }),
        None => Bound::Unbounded,
    }
}

/// Puts rows that stand by rising keys into the order of their numbers.
pub(crate) fn put_in_order(of_areas: bool, rows: &mut [KeyedRow])
    requires { T (is_sorted key_cmp (map seen rows.old)) }
    ensures order { map seen rows.new ≡ finite.entries (finite.from_entries {R = by_number of_areas} (map seen rows.old)) }
{
    turn_relations(of_areas, rows);
    sort_unless_rising(of_areas, rows);
}

/// Puts the relations of a table of areas, which stand behind the others, in front of them and turns their order.
fn turn_relations(of_areas: bool, rows: &mut [KeyedRow])
    ensures permutation { IsPermutation rows.old rows.new }
{
    if !of_areas {
        return;
    }
    rows.reverse();
    let relations = rows.partition_point(|own| matches!(own.key.kind, Kind::Relation));
    rows[relations..].reverse();
}

/// Sorts rows by their numbers and keys, if they do not stand in this order.
fn sort_unless_rising(of_areas: bool, rows: &mut [KeyedRow])
    requires { HasEachOnce of_areas (map seen rows.old) }
    ensures permutation { IsPermutation rows.old rows.new }
    ensures rising { T (is_sorted (by_number of_areas) (map seen rows.new)) }
{
    if are_rising(of_areas, rows) {
        return;
    }
    sort(of_areas, rows);
}

/// Whether each row comes behind the one before it.
fn are_rising(of_areas: bool, rows: &[KeyedRow]) -> bool
    ensures rising { IsTrue result ↔ T (is_sorted (by_number of_areas) (map seen rows.now)) }
{
    let mut place = 1;
    while place < rows.len() {
        if order(of_areas, rows[place - 1].key, rows[place].key).is_ge() {
            return false;
        }
        place += 1;
    }
    true
}

/// Puts rows into the order of their numbers, and then of their keys.
fn sort(of_areas: bool, rows: &mut [KeyedRow])
    ensures permutation { IsPermutation rows.old rows.new }
    ensures sorted { IsSortedByKey key_of (by_number of_areas) rows.new }
{
    rows.sort_unstable_by(|one, other| order(of_areas, one.key, other.key));
}

/// How the rows of two objects are ordered.
fn order(of_areas: bool, key: Key, other: Key) -> Ordering
    ensures order { result ≡ by_number of_areas key other }
{
    let numbers = signed_id(of_areas, key).cmp(&signed_id(of_areas, other));
    numbers.then(key.cmp(&other))
}
