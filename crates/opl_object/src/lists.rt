//! The lists of a line as they are written: tags, node references and members.
ghost use Rattle.std.specs.Prelude.{◌≡◌, ◌++◌, OnOk, OnErr};
ghost use Rattle.std.specs.Io.KnownBytes.{Appends};
ghost use Rattle.std.specs.List.{AllByRecursion};
ghost use Rattle.std.specs.Str.{chars};
ghost use Rattle.osm_base.specs.values.Key.{IsId};
ghost use Rattle.outside.specs.Bytes.{AppendsPrefix};
ghost use Rattle.outside.specs.Causes.{HasCause};
ghost use Rattle.opl_object.specs.Escapes.{IsText};
ghost use Rattle.opl_object.specs.Lists.{key_text, comma_before, tag_text, tags_text, nodes_text, member_text, members_text, OfTag, OfTags, IsMember};
ghost use Rattle.opl_object.specs.Spelling.{kind_byte};

use crate::escapes::put_text;
use osm_base::{Key, Kind, Member, Tags};
use outside::{Failed, Sink, put_all};

/// Puts the letter of a kind and an id.
pub(crate) fn put_key<S: Sink>(out: &mut S, key: Key) -> Result<(), Failed>
    ensures ok { OnOk result (Appends (S.view out.old).taken (S.view out.new).taken (key_text key)) }
    ensures err { OnErr result (AppendsPrefix (S.view out.old).taken (S.view out.new).taken (key_text key)) }
    ensures cause { HasCause (S.view out.old).faults (S.view out.new).faults result }
    ensures id { IsId key.id }
{
    let letter = [kind_byte(key.kind)];
    let mut digits = itoa::Buffer::new();
    put_all(out, &letter)?;
    put_all(out, digits.format(key.id).as_bytes())?;
    Ok(())
}

/// The letter of a kind.
fn kind_byte(kind: Kind) -> u8
    ensures letter { result ≡ kind_byte kind }
{
    match kind {
        Kind::Node => b'n',
        Kind::Way => b'w',
        Kind::Relation => b'r',
    }
}

/// Puts a comma, but not before the first item.
fn put_comma<S: Sink>(out: &mut S, index: usize) -> Result<(), Failed>
    ensures ok { OnOk result (Appends (S.view out.old).taken (S.view out.new).taken (comma_before index)) }
    ensures err { OnErr result (AppendsPrefix (S.view out.old).taken (S.view out.new).taken (comma_before index)) }
    ensures cause { HasCause (S.view out.old).faults (S.view out.new).faults result }
{
    if index == 0 {
        return Ok(());
    }
    put_all(out, b",")?;
    Ok(())
}

/// Puts a key and its value.
fn put_tag<S: Sink>(out: &mut S, key: &str, value: &str) -> Result<(), Failed>
    ensures ok { OnOk result (Appends (S.view out.old).taken (S.view out.new).taken (tag_text (chars key.now, chars value.now))) }
    ensures err { OnErr result (AppendsPrefix (S.view out.old).taken (S.view out.new).taken (tag_text (chars key.now, chars value.now))) }
    ensures cause { HasCause (S.view out.old).faults (S.view out.new).faults result }
    ensures texts { OnOk result (OfTag IsText (chars key.now, chars value.now)) }
{
    put_text(out, key)?;
    put_all(out, b"=")?;
    put_text(out, value)?;
    Ok(())
}

/// Puts tags.
pub(crate) fn put_tags<S: Sink>(out: &mut S, tags: &Tags) -> Result<(), Failed>
    ensures ok { OnOk result (Appends (S.view out.old).taken (S.view out.new).taken (tags_text tags.now)) }
    ensures err { OnErr result (AppendsPrefix (S.view out.old).taken (S.view out.new).taken (tags_text tags.now)) }
    ensures cause { HasCause (S.view out.old).faults (S.view out.new).faults result }
    ensures texts { OnOk result (OfTags IsText tags.now) }
{
    for index in 0..tags.len() {
        let (key, value) = tags.nth(index);
        put_comma(out, index)?;
        put_tag(out, key, value)?;
    }
    Ok(())
}

/// Puts node references.
pub(crate) fn put_nodes<S: Sink>(out: &mut S, nodes: &[u64]) -> Result<(), Failed>
    requires { AllByRecursion IsId nodes.now }
    ensures ok { OnOk result (Appends (S.view out.old).taken (S.view out.new).taken (nodes_text nodes.now)) }
    ensures err { OnErr result (AppendsPrefix (S.view out.old).taken (S.view out.new).taken (nodes_text nodes.now)) }
    ensures cause { HasCause (S.view out.old).faults (S.view out.new).faults result }
{
    for (index, &id) in nodes.iter().enumerate() {
        put_comma(out, index)?;
        put_key(out, Key::new(Kind::Node, id))?;
    }
    Ok(())
}

/// Puts a member.
fn put_member<S: Sink>(out: &mut S, member: &Member) -> Result<(), Failed>
    ensures ok { OnOk result (Appends (S.view out.old).taken (S.view out.new).taken (member_text member.now)) }
    ensures err { OnErr result (AppendsPrefix (S.view out.old).taken (S.view out.new).taken (member_text member.now)) }
    ensures cause { HasCause (S.view out.old).faults (S.view out.new).faults result }
    ensures member { OnOk result (IsMember member.now) }
{
    put_key(out, member.key)?;
    put_all(out, b"@")?;
    put_text(out, member.role.as_str())?;
    Ok(())
}

/// Puts members.
pub(crate) fn put_members<S: Sink>(out: &mut S, members: &[Member]) -> Result<(), Failed>
    ensures ok { OnOk result (Appends (S.view out.old).taken (S.view out.new).taken (members_text members.now)) }
    ensures err { OnErr result (AppendsPrefix (S.view out.old).taken (S.view out.new).taken (members_text members.now)) }
    ensures cause { HasCause (S.view out.old).faults (S.view out.new).faults result }
    ensures members { OnOk result (AllByRecursion IsMember members.now) }
{
    for (index, member) in members.iter().enumerate() {
        put_comma(out, index)?;
        put_member(out, member)?;
    }
    Ok(())
}
