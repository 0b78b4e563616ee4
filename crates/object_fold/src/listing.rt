//! Who lists the objects of one kind.
ghost use Rattle.std.specs.Prelude.{◌≡◌, ℕ, [], ◌∷◌, OnOk, OnErr};
ghost use Rattle.std.specs.FinMap as map;
ghost use Rattle.osm_base.specs.values.Ids.{IsRising, has};
ghost use Rattle.object_fold.specs.Listing.{listers, Lists, ListsFront, Unlists};

use crate::RisingIds;
use osm_base::OutOfMemory;
use std::alloc::Global;
use std::collections::BTreeMap;
use std::marker::Model;

/// Ids, each with the ids of those who list it.
#[derive(Drop)]
pub struct Listing {
    lists: BTreeMap<u64, RisingIds>,
}

impl Model for Listing {
    ghost use Rattle.std.specs.Prelude.{ℕ, List};
    ghost use Rattle.std.specs.Coded.{coded_list, coded_ℕ};
    ghost use Rattle.std.specs.Ordering.{nat_cmp};
    ghost use Rattle.std.specs.FinMap as map;

    ghost Value = { map.FinMap nat_cmp (List ℕ) };

    ghost coded = { map.code coded_ℕ (coded_list coded_ℕ) };

    ghost view = { λ listing. map.from_entries listing.lists.entries };
}

impl Listing {
    /// No id is listed.
    pub fn new(alloc: Global) -> Self
        ensures empty { result ≡ map.empty }
    {
        Self {
            lists: BTreeMap::new(alloc),
        }
    }

    /// The rising ids of those who list an id.
    pub fn listers(&self, id: u64) -> &[u64]
        ensures ids { result.now ≡ listers self.now id }
        ensures rise { IsRising result.now }
    {
        match self.lists.get(&id) {
            Some(ids) => ids.as_slice(),
            None => &[],
        }
    }

    /// Lists an id.
    fn list(&mut self, alloc: Global, id: u64, lister: u64) -> Result<(), OutOfMemory>
        ensures ok { OnOk result (Lists (id ∷ []) lister self.old self.new) }
        ensures err { OnErr result (Lists [] lister self.old self.new) }
    {
        if let Some(ids) = self.lists.get_mut(&id) {
            ids.add(lister)?;
            return Ok(());
        }
        let mut ids = RisingIds::new(alloc);
        ids.add(lister)?;
        self.lists.insert(id, ids)?;
        Ok(())
    }

    /// Lists an id no longer.
    fn unlist(&mut self, id: u64, lister: u64)
        ensures left { Unlists (id ∷ []) [] lister self.old self.new }
    {
        let Some(ids) = self.lists.get_mut(&id) else {
            return;
        };
        ids.take_out(lister);
        if ids.is_empty() {
            self.lists.remove(&id);
        }
    }

    /// Lists these ids. After `Err` some first of them are listed.
    pub fn list_all(&mut self, alloc: Global, ids: &[u64], lister: u64) -> Result<(), OutOfMemory>
        ensures ok { OnOk result (Lists ids.now lister self.old self.new) }
        ensures err { OnErr result (ListsFront ids.now lister self.old self.new) }
    {
        for &id in ids {
            self.list(alloc, id, lister)?;
        }
        Ok(())
    }

    /// Lists these ids no longer, but for those.
    pub fn unlist_all(&mut self, ids: &[u64], but: &RisingIds, lister: u64)
        ensures left { Unlists ids.now but.now lister self.old self.new }
    {
        for &id in ids {
            if !but.contains(id) {
                self.unlist(id, lister);
            }
        }
    }
}
