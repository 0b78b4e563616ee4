//! The line of an entry as it is written.
ghost use Rattle.std.specs.Prelude.{◌≡◌, ◌++◌, OnOk, OnErr, IfSome};
ghost use Rattle.std.specs.Io.KnownBytes.{Appends};
ghost use Rattle.std.specs.List.{AllByRecursion};
ghost use Rattle.osm_base.specs.values.Degrees.{degrees};
ghost use Rattle.osm_base.specs.values.Key.{IsId};
ghost use Rattle.osm_base.specs.values.Place.{IsOnEarth};
ghost use Rattle.outside.specs.Bytes.{AppendsPrefix};
ghost use Rattle.outside.specs.Causes.{HasCause};
ghost use Rattle.opl_object.specs.Escapes.{IsText};
ghost use Rattle.opl_object.specs.Lists.{OfTags, IsMember};
ghost use Rattle.opl_object.specs.Spells.{Spells};
ghost use Rattle.opl_object.specs.Written.{place_text, object_text, fields_text, line_text, entry_text, tag_field, node_field, member_field, tags_in, own_text, HasIds, IsWritable, IsSound, IsOwnSound};

use crate::lists::{put_key, put_members, put_nodes, put_tags};
use osm_base::{DegreesBuffer, Entry, Member, Object, Place, Tags};
use outside::{Failed, Sink, put_all};

/// Writes the line of an entry, which `read_line` reads as the same entry. After `Failed` the sink has taken
/// some front of it. For callers outside: the program does not use it.
pub fn write_entry<S: Sink>(entry: &Entry, out: &mut S) -> Result<(), Failed>
    requires { IsWritable entry.now }
    ensures ok { OnOk result (Appends (S.view out.old).taken (S.view out.new).taken (entry_text entry.now)) }
    ensures err { OnErr result (AppendsPrefix (S.view out.old).taken (S.view out.new).taken (entry_text entry.now)) }
    ensures cause { HasCause (S.view out.old).faults (S.view out.new).faults result }

    // What was written, without its newline, spells the entry.
    ensures spelled { OnOk result (Spells (line_text entry.now) entry.now) }
{
    put_key(out, entry.key)?;
    put_fields(out, &entry.object)?;
    put_all(out, b"\n")?;
    Ok(())
}

/// Puts the fields of an object, or that it is deleted.
fn put_fields<S: Sink>(out: &mut S, object: &Option<Object>) -> Result<(), Failed>
    requires { IfSome object.now HasIds }
    ensures ok { OnOk result (Appends (S.view out.old).taken (S.view out.new).taken (fields_text object.now)) }
    ensures err { OnErr result (AppendsPrefix (S.view out.old).taken (S.view out.new).taken (fields_text object.now)) }
    ensures cause { HasCause (S.view out.old).faults (S.view out.new).faults result }
    ensures sound { OnOk result (IfSome object.now IsSound) }
{
    match object {
        Some(object) => put_object(out, object)?,
        None => put_all(out, b" dD")?,
    }
    Ok(())
}

/// Puts the fields of an object.
fn put_object<S: Sink>(out: &mut S, object: &Object) -> Result<(), Failed>
    requires { HasIds object.now }
    ensures ok { OnOk result (Appends (S.view out.old).taken (S.view out.new).taken (object_text object.now)) }
    ensures err { OnErr result (AppendsPrefix (S.view out.old).taken (S.view out.new).taken (object_text object.now)) }
    ensures cause { HasCause (S.view out.old).faults (S.view out.new).faults result }
    ensures sound { OnOk result (IsSound object.now) }
{
    put_tag_field(out, tags_in(object))?;
    put_own(out, object)
}

/// The tags of an object.
#[tactic(auto, unfolding(crate::specs::Written::tags_in))]
fn tags_in(object: &Object) -> &Tags
    ensures tags { result.now ≡ tags_in object.now }
{
    match object {
        Object::Node { tags, .. } => tags,
        Object::Way { tags, .. } => tags,
        Object::Relation { tags, .. } => tags,
    }
}

/// Puts the field of the tags.
fn put_tag_field<S: Sink>(out: &mut S, tags: &Tags) -> Result<(), Failed>
    ensures ok { OnOk result (Appends (S.view out.old).taken (S.view out.new).taken (tag_field tags.now)) }
    ensures err { OnErr result (AppendsPrefix (S.view out.old).taken (S.view out.new).taken (tag_field tags.now)) }
    ensures cause { HasCause (S.view out.old).faults (S.view out.new).faults result }
    ensures texts { OnOk result (OfTags IsText tags.now) }
{
    put_all(out, b" T")?;
    put_tags(out, tags)
}

/// Puts the fields that only objects of this kind have.
#[tactic(auto, unfolding(crate::specs::Written::own_text, crate::specs::Written::IsOwnSound))]
fn put_own<S: Sink>(out: &mut S, object: &Object) -> Result<(), Failed>
    requires { HasIds object.now }
    ensures ok { OnOk result (Appends (S.view out.old).taken (S.view out.new).taken (own_text object.now)) }
    ensures err { OnErr result (AppendsPrefix (S.view out.old).taken (S.view out.new).taken (own_text object.now)) }
    ensures cause { HasCause (S.view out.old).faults (S.view out.new).faults result }
    ensures sound { OnOk result (IsOwnSound object.now) }
{
    match object {
        Object::Node { place, .. } => put_place(out, *place),
        Object::Way { nodes, .. } => put_node_field(out, nodes.as_slice()),
        Object::Relation { members, .. } => put_member_field(out, members.as_slice()),
    }
}

/// Puts the field of the nodes of a way.
fn put_node_field<S: Sink>(out: &mut S, nodes: &[u64]) -> Result<(), Failed>
    requires { AllByRecursion IsId nodes.now }
    ensures ok { OnOk result (Appends (S.view out.old).taken (S.view out.new).taken (node_field nodes.now)) }
    ensures err { OnErr result (AppendsPrefix (S.view out.old).taken (S.view out.new).taken (node_field nodes.now)) }
    ensures cause { HasCause (S.view out.old).faults (S.view out.new).faults result }
{
    put_all(out, b" N")?;
    put_nodes(out, nodes)
}

/// Puts the field of the members of a relation.
fn put_member_field<S: Sink>(out: &mut S, members: &[Member]) -> Result<(), Failed>
    ensures ok { OnOk result (Appends (S.view out.old).taken (S.view out.new).taken (member_field members.now)) }
    ensures err { OnErr result (AppendsPrefix (S.view out.old).taken (S.view out.new).taken (member_field members.now)) }
    ensures cause { HasCause (S.view out.old).faults (S.view out.new).faults result }
    ensures members { OnOk result (AllByRecursion IsMember members.now) }
{
    put_all(out, b" M")?;
    put_members(out, members)
}

/// Puts a longitude and a latitude, or their letters alone.
fn put_place<S: Sink>(out: &mut S, place: Option<Place>) -> Result<(), Failed>
    ensures ok { OnOk result (Appends (S.view out.old).taken (S.view out.new).taken (place_text place)) }
    ensures err { OnErr result (AppendsPrefix (S.view out.old).taken (S.view out.new).taken (place_text place)) }
    ensures cause { HasCause (S.view out.old).faults (S.view out.new).faults result }
    ensures earth { OnOk result (IfSome place (λ place. IsOnEarth place.lon place.lat)) }
{
    let Some(place) = place else {
        put_all(out, b" x y")?;
        return Ok(());
    };
    put_degrees(out, b" x", place.lon)?;
    put_degrees(out, b" y", place.lat)?;
    Ok(())
}

/// Puts a letter and a coordinate.
fn put_degrees<S: Sink>(out: &mut S, letter: &[u8], units: i32) -> Result<(), Failed>
    ensures ok { OnOk result (Appends (S.view out.old).taken (S.view out.new).taken (letter.now ++ degrees units)) }
    ensures err { OnErr result (AppendsPrefix (S.view out.old).taken (S.view out.new).taken (letter.now ++ degrees units)) }
    ensures cause { HasCause (S.view out.old).faults (S.view out.new).faults result }
{
    let mut text = DegreesBuffer::new();
    put_all(out, letter)?;
    put_all(out, text.format(units))?;
    Ok(())
}
