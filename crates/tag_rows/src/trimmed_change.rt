//! What is kept of the entries of a file for the lines of ways with a tag.
ghost use Rattle.std.specs.Prelude.{◌≡◌, [], None, Some, IfOk, OnOk};
ghost use Rattle.std.specs.FinMap as map;
ghost use Rattle.std.specs.Option.{option_map};
ghost use Rattle.std.specs.Str.{chars};
ghost use Rattle.osm_base.specs.declared.values.object.Object.TheVariants.{Node, Way};
ghost use Rattle.object_fold.specs.Change.{Follows, IsProper, last_key};
ghost use Rattle.tag_rows.specs.TrimmedChange.{trimmed_entry, trimmed_object, with_entry};

use object_fold::{Change, Keeper};
use osm_base::{Entry, Ids, Key, Object, OutOfMemory, Place, Tags};
use std::alloc::Global;
use std::marker::Model;
use std::mem;

/// The entries of a file, with what can matter for the lines of the ways with a tag of this key.
#[derive(Drop)]
pub struct TrimmedChange<'k> {
    alloc: Global,
    key: &'k str,
    change: Change,
}

impl<'k> Model for TrimmedChange<'k> {
    ghost use Rattle.std.specs.Str.{chars};
    ghost use Rattle.tag_rows.specs.TrimmedChange.{TrimmedEntries, entries_code};

    ghost Value = { TrimmedEntries };

    ghost coded = { entries_code };

    ghost view = { λ own. record { key = chars own.key.now; entries = own.change } };
}

impl<'k> TrimmedChange<'k> {
    /// No entry yet.
    pub fn new(alloc: Global, key: &'k str) -> Self
        ensures empty { result ≡ record { key = chars key.now; entries = [] } }
    {
        Self {
            alloc,
            key,
            change: Change::new(alloc),
        }
    }

    /// The entries.
    pub fn into_change(self) -> Change
        ensures entries { result ≡ self.entry.entries }
    {
        let Self { change, .. } = self;
        change
    }

    /// Takes the next entry, and leaves in it what is not kept.
    fn keep_from(&mut self, entry: &mut Entry) -> Result<(), OutOfMemory>
        requires takes { Follows (last_key None self.old.entries) entry.old.key }
        requires proper { IsProper entry.old }
        ensures ok { OnOk result (self.new ≡ with_entry self.old entry.old) }
    {
        let entry = trimmed_entry(self.alloc, self.key, entry)?;
        self.change.keep(entry)
    }
}

impl Keeper for TrimmedChange<'_> {
    ghost takes = { λ own next. Follows (last_key None own.entries) next };

    ghost after = { with_entry };

    fn keep(&mut self, mut entry: Entry) -> Result<(), OutOfMemory> {
        self.keep_from(&mut entry)?;
        Ok(())
    }

    fn keep_all(
        &mut self,
        last: Option<Key>,
        mut entries: Vec<Entry>,
    ) -> Result<Vec<Entry>, OutOfMemory> {
        for entry in entries.iter_mut() {
            self.keep_from(entry)?;
        }
        Ok(entries)
    }
}

/// The entry of what is kept of an object.
pub fn trimmed_entry(alloc: Global, key: &str, entry: &mut Entry) -> Result<Entry, OutOfMemory>
    ensures kept { IfOk result (λ kept. kept ≡ trimmed_entry (chars key.now) entry.old) }
{
    let object = match &mut entry.object {
        Some(object) => kept(alloc, key, object)?,
        None => None,
    };
    Ok(Entry {
        key: entry.key,
        object,
    })
}

/// What is kept of an object: the place of a node, and the nodes and the one tag of a way.
fn kept(alloc: Global, key: &str, object: &mut Object) -> Result<Option<Object>, OutOfMemory>
    ensures kept { IfOk result (λ kept. kept ≡ trimmed_object (chars key.now) object.old) }
{
    match object {
        Object::Node { place, tags: _tags } => Ok(trimmed_node(alloc, *place)),
        Object::Way { nodes, tags } => trimmed_way(alloc, key, nodes, tags),
        Object::Relation { .. } => Ok(None),
    }
}

/// A node with this place and no tag, where it has a place.
fn trimmed_node(alloc: Global, place: Option<Place>) -> Option<Object>
    ensures kept { result ≡ option_map (λ place. Node (Some place) map.empty) place }
{
    let place = Some(place?);
    let tags = Tags::new(alloc);
    Some(Object::Node { place, tags })
}

/// A way with these nodes and the tag of the key, where it has that tag.
fn trimmed_way(
    alloc: Global,
    key: &str,
    nodes: &mut Ids,
    tags: &Tags,
) -> Result<Option<Object>, OutOfMemory>
    ensures kept { IfOk result (λ kept. kept ≡ option_map (λ value. Way nodes.old (map.insert map.empty (chars key.now) value)) (map.get tags.now (chars key.now))) }
{
    match one_tag(alloc, key, tags)? {
        Some(tags) => Ok(Some(Object::Way {
            nodes: mem::replace(nodes, Ids::new(alloc)),
            tags,
        })),
        None => Ok(None),
    }
}

/// The tag of a key alone, where it is among these.
fn one_tag(alloc: Global, key: &str, tags: &Tags) -> Result<Option<Tags>, OutOfMemory>
    ensures tag { IfOk result (λ one. one ≡ option_map (λ value. map.insert map.empty (chars key.now) value) (map.get tags.now (chars key.now))) }
{
    let Some(value) = tags.get(key) else {
        return Ok(None);
    };
    let one = Tags::one(alloc, key, value)?;
    Ok(Some(one))
}
