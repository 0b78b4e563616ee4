//! The objects of a map, of which nobody asks yet who lists them.
ghost use Rattle.std.specs.Prelude.{◌≡◌, IfOk, OnOk, OnErr};
ghost use Rattle.std.specs.FinMap as map;
ghost use Rattle.std.specs.Option.{option_copied};
ghost use Rattle.osm_base.specs.map.Objects.{folded};
ghost use Rattle.osm_base.specs.map.Listers.{known_of};

use super::{Objects, place_at, remove_object, set_object};
use osm_base::{Entry, Key, MAX_ID, Object, OutOfMemory, Place};
use std::alloc::Global;
use std::collections::BTreeMap;
use std::marker::Model;

/// The objects of a map by their keys, of which nobody asks yet who lists them.
#[derive(Drop)]
pub struct UnlistedObjects {
    alloc: Global,
    objects: BTreeMap<Key, Object>,
}

impl Model for UnlistedObjects {
    ghost use Rattle.std.specs.FinMap as map;
    ghost use Rattle.osm_base.specs.declared.values.object.Object.{Object};
    ghost use Rattle.osm_base.specs.values.KeyOrder.{key_cmp};
    ghost use Rattle.osm_base.specs.contracts.values.key.Key as key;
    ghost use Rattle.osm_base.specs.contracts.values.object.Object as object;
    ghost use Rattle.osm_base.specs.map.Objects.{objects_in};
    ghost use Rattle.object_fold.specs.Listings.{HasIds};

    ghost Value = { map.FinMap key_cmp Object };

    ghost coded = { map.code key.the_row.coded object.the_row.coded };

    ghost view = { λ own. objects_in own.objects };

    ghost invariant = { λ own. HasIds (objects_in own.objects) };
}

impl UnlistedObjects {
    /// No object.
    pub fn new(alloc: Global) -> Self
        ensures empty { result ≡ map.empty }
    {
        Self {
            alloc,
            objects: BTreeMap::new(alloc),
        }
    }

    /// What an entry says is so from now on. After `Err` nothing has changed.
    pub fn apply(&mut self, entry: Entry) -> Result<(), OutOfMemory>
        ensures ok { OnOk result (self.new ≡ folded self.old entry) }
        ensures err { OnErr result (self.new ≡ self.old) }
    {
        let Entry { key, object } = entry;
        prove!(1 <= key.id && key.id <= MAX_ID);
        match object {
            Some(object) => set_object(&mut self.objects, key, object),
            None => {
                remove_object(&mut self.objects, key);
                Ok(())
            }
        }
    }

    /// The place of a node. `None`: there is no such node, or it has no place.
    pub fn place_of(&self, id: u64) -> Option<Place>
        ensures place { result ≡ (known_of self.now).place id }
    {
        place_at(&self.objects, id)
    }

    /// The object of a key.
    pub fn object_of(&self, key: Key) -> Option<&Object>
        ensures object { option_copied result ≡ map.get self.now key }
    {
        self.objects.get(&key)
    }

    /// The same objects, with the index of who lists them.
    pub fn into_objects(self) -> Result<Objects, OutOfMemory>
        ensures same { IfOk result (λ objects. objects ≡ self) }
    {
        let Self { alloc, objects } = self;
        let mut listed = Objects::new(alloc);
        for (key, object) in objects {
            let object = Some(object);
            listed.apply(Entry { key, object })?;
        }
        Ok(listed)
    }
}
