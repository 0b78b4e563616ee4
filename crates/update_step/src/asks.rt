//! What is asked of a store so that rows can be built of its answers, round by round: each round is made of the answers to those
//! before it.
ghost use Rattle.std.specs.Prelude.{◌≡◌, ◌++◌, flat_map, map, IfOk, OnOk};
ghost use Rattle.std.specs.List.{AllByRecursion};
ghost use Rattle.osm_base.specs.values.Key.{IsId};
ghost use Rattle.update_step.specs.Gather.{AtNode, OfKey, gathered_in, known_in, place_asks, relation_asks};
ghost use Rattle.update_step.specs.Rounds.{asks_behind, lister_asked, member_asked, parts_asked, parts_of, ways_asked};

use crate::answers::StoreAnswers;
use osm_base::{Key, Kind, Lookup, Member, Object, OutOfMemory};
use row_map::may_have_rows;
use std::alloc::Global;
use style_read::Style;

/// What may be asked: the place of a node, the object of a key, and the relations that have a way or a node as a member.
#[derive(Clone, Copy)]
pub(crate) enum Ask {
    AtNode(u64),
    OfKey(Key),
    AlongWay(u64),
    AroundNode(u64),
}

/// Adds the places of nodes.
fn add_nodes(asks: &mut Vec<Ask>, ids: &[u64]) -> Result<(), OutOfMemory>
    ensures added { OnOk result (asks.new.items ≡ asks.old.items ++ map AtNode ids.now) }
{
    for &id in ids {
        asks.push(Ask::AtNode(id))?;
    }
    Ok(())
}

/// Adds the places of the nodes of an object that is a way.
fn add_places(asks: &mut Vec<Ask>, form: &Option<Object>) -> Result<(), OutOfMemory>
    ensures added { OnOk result (asks.new.items ≡ asks.old.items ++ place_asks form.now) }
{
    match form {
        Some(Object::Way { nodes, .. }) => add_nodes(asks, nodes.as_slice()),
        _ => Ok(()),
    }
}

/// Adds a member that is a way.
fn add_member(asks: &mut Vec<Ask>, member: &Member) -> Result<(), OutOfMemory>
    ensures added { OnOk result (asks.new.items ≡ asks.old.items ++ member_asked member.now) }
{
    if member.key.kind == Kind::Way {
        asks.push(Ask::OfKey(member.key))?;
        return Ok(());
    }
    Ok(())
}

/// Adds the members that are ways.
fn add_members(asks: &mut Vec<Ask>, members: &[Member]) -> Result<(), OutOfMemory>
    ensures added { OnOk result (asks.new.items ≡ asks.old.items ++ flat_map member_asked members.now) }
{
    for member in members {
        add_member(asks, member)?;
    }
    Ok(())
}

/// Adds the ways among the members of an object that is a relation.
fn add_ways(asks: &mut Vec<Ask>, form: &Option<Object>) -> Result<(), OutOfMemory>
    ensures added { OnOk result (asks.new.items ≡ asks.old.items ++ ways_asked form.now) }
{
    match form {
        Some(Object::Relation { members, .. }) => add_members(asks, members.as_slice()),
        _ => Ok(()),
    }
}

/// Adds who has an object as a member: of a node only where selections reach nodes.
fn add_listers(asks: &mut Vec<Ask>, reaches: bool, key: Key) -> Result<(), OutOfMemory>
    ensures added { OnOk result (asks.new.items ≡ asks.old.items ++ lister_asked reaches key) }
{
    match key.kind {
        Kind::Node => {
            if reaches {
                asks.push(Ask::AroundNode(key.id))?;
            }
            Ok(())
        }
        Kind::Way => {
            asks.push(Ask::AlongWay(key.id))?;
            Ok(())
        }
        Kind::Relation => Ok(()),
    }
}

/// Adds what the rows of an object are built of besides it: nothing, where no table may want it.
fn add_parts(
    asks: &mut Vec<Ask>,
    style: &Style,
    reaches: bool,
    key: Key,
    form: &Option<Object>,
) -> Result<(), OutOfMemory>
    ensures added { OnOk result (asks.new.items ≡ asks.old.items ++ parts_asked style.now reaches key form.now) }
{
    if !may_have_rows(style, form) {
        return Ok(());
    }
    add_places(asks, form)?;
    add_ways(asks, form)?;
    add_listers(asks, reaches, key)?;
    Ok(())
}

/// Adds those of a key, whose object was asked.
fn add_parts_of(
    asks: &mut Vec<Ask>,
    style: &Style,
    reaches: bool,
    key: Key,
    answers: &StoreAnswers<'_>,
) -> Result<(), OutOfMemory>
    ensures added { OnOk result (asks.new.items ≡ asks.old.items ++ parts_of style.now reaches (known_in (gathered_in answers.now)) key) }
{
    match answers.form(key) {
        Some(form) => add_parts(asks, style, reaches, key, form),
        None => Ok(()),
    }
}

/// Adds relations.
fn add_relations(asks: &mut Vec<Ask>, ids: &[u64]) -> Result<(), OutOfMemory>
    requires ids { AllByRecursion IsId ids.now }
    ensures added { OnOk result (asks.new.items ≡ asks.old.items ++ relation_asks ids.now) }
{
    for &id in ids {
        asks.push(Ask::OfKey(Key::new(Kind::Relation, id)))?;
    }
    Ok(())
}

/// Adds what an answer leads to: of a way its nodes, of a list of relations these.
fn add_behind(asks: &mut Vec<Ask>, ask: Ask, answers: &StoreAnswers<'_>) -> Result<(), OutOfMemory>
    ensures added { OnOk result (asks.new.items ≡ asks.old.items ++ asks_behind (known_in (gathered_in answers.now)) ask) }
{
    match ask {
        Ask::AtNode(_) => Ok(()),
        Ask::OfKey(key) => match answers.form(key) {
            Some(form) => add_places(asks, form),
            None => Ok(()),
        },
        Ask::AlongWay(id) => add_relations(asks, answers.relations_of_way(id)),
        Ask::AroundNode(id) => add_relations(asks, answers.relations_of_node(id)),
    }
}

/// The first round: the objects of keys.
pub(crate) fn of_keys(alloc: Global, keys: &[Key]) -> Result<Vec<Ask>, OutOfMemory>
    ensures asks { IfOk result (λ asks. asks.items ≡ map OfKey keys.now) }
{
    let mut asks = Vec::with_capacity(alloc, keys.len())?;
    for &key in keys {
        asks.push(Ask::OfKey(key))?;
    }
    Ok(asks)
}

/// The second round: what the rows of these keys are built of besides their objects.
pub(crate) fn of_parts(
    alloc: Global,
    style: &Style,
    reaches: bool,
    keys: &[Key],
    answers: &StoreAnswers<'_>,
) -> Result<Vec<Ask>, OutOfMemory>
    ensures asks { IfOk result (λ asks. asks.items ≡ flat_map (parts_of style.now reaches (known_in (gathered_in answers.now))) keys.now) }
{
    let mut asks = Vec::new(alloc);
    for &key in keys {
        add_parts_of(&mut asks, style, reaches, key, answers)?;
    }
    Ok(asks)
}

/// The third round: what the answers to the second one lead to.
pub(crate) fn behind(
    alloc: Global,
    asks: &[Ask],
    answers: &StoreAnswers<'_>,
) -> Result<Vec<Ask>, OutOfMemory>
    ensures asks { IfOk result (λ more. more.items ≡ flat_map (asks_behind (known_in (gathered_in answers.now))) asks.now) }
{
    let mut more = Vec::new(alloc);
    for &ask in asks {
        add_behind(&mut more, ask, answers)?;
    }
    Ok(more)
}
