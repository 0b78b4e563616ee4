//! The maps of an open store, within a transaction.
ghost use Rattle.std.specs.Prelude.{◌≡◌, None};

use crate::maps::finding::{find_object, place_in};
use crate::maps::setting::{keep_rows, put_object, take_object};
use back_index::{Indexed, fill, listers, relist};
use bucket_store::Buckets;
use osm_base::{Back, Entry, Ids, Key, Kind, Object, Place, TableRows};
use outside::Disk;
use page_journal::StoreFault;
use std::alloc::Global;
use store_maps::MapStore;
use style_read::Style;
use value_bytes::StoreMap;

/// The maps of an open store, within a transaction, with rows of a style.
#[derive(Drop)]
pub(crate) struct StoreTxn<'d, 's, D: Disk> {
    pub indexed: Indexed<'d, D>,
    style: &'s Style,
    alloc: Global,
}

impl<'d, 's, D: Disk> StoreTxn<'d, 's, D> {
    ghost use Rattle.update_flow.specs.maps.Calls.{buckets_of, stop_of, style_in};

    /// The maps in these buckets, with rows of this style.
    pub fn over(alloc: Global, buckets: Buckets<'d, D>, style: &'s Style) -> Self
        ensures buckets { buckets_of result ≡ buckets.entry }
        ensures style { style_in result ≡ style.now }
        ensures going { stop_of result ≡ None }
    {
        Self {
            indexed: Indexed::over(alloc, buckets),
            style,
            alloc,
        }
    }

    /// Hands the buckets back.
    pub fn close(self) -> Buckets<'d, D>
        ensures { result ≡ buckets_of self.entry }
    {
        let Self {
            indexed,
            style: _,
            alloc: _,
        } = self;
        indexed.close()
    }
}

impl<D: Disk> Back for StoreTxn<'_, '_, D> {
    ghost use Rattle.back_index.specs.Index.{Knows};
    ghost use Rattle.update_flow.specs.maps.Calls.{AreAsked, WasRefused, buckets_of, faults_of, is_over};
    ghost use Rattle.update_flow.specs.maps.Laws.{are_asked_none, are_asked_then, was_fewer};

    type Refusal = StoreFault;

    ghost knows = { λ kept index. Knows (buckets_of kept) index };

    ghost faults = { λ kept. faults_of kept };

    ghost spent = { λ kept. is_over kept };

    ghost bears = { λ kept count refusal. WasRefused kept count refusal };

    ghost asks = { λ old questions new. AreAsked questions old new };

    fn ways_of_node(&mut self, id: u64) -> Result<Ids, StoreFault> {
        self.indexed.ways_of_node(id)
    }

    fn relations_of_node(&mut self, id: u64) -> Result<Ids, StoreFault> {
        self.indexed.relations_of_node(id)
    }

    fn relations_of_way(&mut self, id: u64) -> Result<Ids, StoreFault> {
        self.indexed.relations_of_way(id)
    }

    ghost bears_fewer = { λ kept fewer more refusal le was. was_fewer kept fewer more refusal le was };

    ghost asks_none = { λ kept. are_asked_none kept };

    ghost asks_then = { λ first second third before after once again. are_asked_then before after first second third once again };
}

impl<D: Disk> MapStore for StoreTxn<'_, '_, D> {
    ghost use Rattle.back_index.specs.Reads.{HasReadOnly};
    ghost use Rattle.update_flow.specs.maps.Calls.{IsAllowed, IsLater, Keeps, buckets_of, style_in};
    ghost use Rattle.update_flow.specs.maps.Held.{Beside};
    ghost use Rattle.update_flow.specs.maps.Laws.{asked_allowed, asked_keeps, asked_later, asked_refused, asked_within, keeps_index, later_same};

    ghost Under = { Beside };

    ghost style = { λ kept. style_in kept };

    ghost holds = { λ kept under maps. Keeps kept under maps };

    ghost looked = { λ first last. IsLater first last };

    ghost within = { λ may kept. HasReadOnly may (buckets_of kept) };

    ghost allowed = { λ refusal. IsAllowed refusal };

    fn way_or_relation(&mut self, key: Key) -> Result<Option<Object>, StoreFault> {
        match key.kind {
            Kind::Node => Ok(None),
            _ => match middle_objs::get(self.alloc, &mut self.indexed.buckets, key) {
                Ok(found) => Ok(found),
                Err(fault) => {
                    self.indexed.stopped = Some(fault);
                    Err(fault)
                }
            },
        }
    }

    fn relist(
        &mut self,
        key: Key,
        old: &Option<Object>,
        new: &Option<Object>,
    ) -> Result<(), StoreFault> {
        let _id = key.id;
        match relist(self.alloc, &mut self.indexed.buckets, key, old, new) {
            Ok(()) => Ok(()),
            Err(fault) => {
                self.indexed.stopped = Some(fault);
                Err(fault)
            }
        }
    }

    fn list_all(&mut self, entries: &[Entry]) -> Result<(), StoreFault> {
        match fill(self.alloc, &mut self.indexed.buckets, entries) {
            Ok(()) => Ok(()),
            Err(fault) => {
                self.indexed.stopped = Some(fault);
                Err(fault)
            }
        }
    }

    fn set(&mut self, key: Key, object: &Option<Object>) -> Result<(), StoreFault> {
        match object {
            Some(object) => match put_object(self.alloc, &mut self.indexed.buckets, key, object) {
                Ok(()) => Ok(()),
                Err(fault) => {
                    self.indexed.stopped = Some(fault);
                    Err(fault)
                }
            },
            None => match take_object(&mut self.indexed.buckets, key) {
                Ok(_) => Ok(()),
                Err(fault) => {
                    self.indexed.stopped = Some(fault);
                    Err(fault)
                }
            },
        }
    }

    fn rows(&mut self, key: Key) -> Result<Option<TableRows>, StoreFault> {
        match row_store::get(self.alloc, &mut self.indexed.buckets, self.style, key) {
            Ok(found) => Ok(found),
            Err(fault) => {
                self.indexed.stopped = Some(fault);
                Err(fault)
            }
        }
    }

    fn set_rows(&mut self, key: Key, rows: &TableRows) -> Result<(), StoreFault> {
        match keep_rows(self.alloc, &mut self.indexed.buckets, self.style, key, rows) {
            Ok(()) => Ok(()),
            Err(fault) => {
                self.indexed.stopped = Some(fault);
                Err(fault)
            }
        }
    }

    fn place(&mut self, id: u64) -> Result<Option<Place>, StoreFault> {
        match middle_nodes::get(self.alloc, &mut self.indexed.buckets, id) {
            Ok(found) => Ok(place_in(found)),
            Err(fault) => {
                self.indexed.stopped = Some(fault);
                Err(fault)
            }
        }
    }

    fn object(&mut self, key: Key) -> Result<Option<Object>, StoreFault> {
        match find_object(self.alloc, &mut self.indexed.buckets, key) {
            Ok(found) => Ok(found),
            Err(fault) => {
                self.indexed.stopped = Some(fault);
                Err(fault)
            }
        }
    }

    fn along_way(&mut self, id: u64) -> Result<Ids, StoreFault> {
        match listers(
            self.alloc,
            &mut self.indexed.buckets,
            StoreMap::RelationsOfWays,
            id,
        ) {
            Ok(ids) => Ok(ids),
            Err(fault) => {
                self.indexed.stopped = Some(fault);
                Err(fault)
            }
        }
    }

    fn around_node(&mut self, id: u64) -> Result<Ids, StoreFault> {
        match listers(
            self.alloc,
            &mut self.indexed.buckets,
            StoreMap::RelationsOfNodes,
            id,
        ) {
            Ok(ids) => Ok(ids),
            Err(fault) => {
                self.indexed.stopped = Some(fault);
                Err(fault)
            }
        }
    }

    ghost looked_none = { λ kept. later_same kept };

    ghost same_style = { λ old new later. later.same_style };

    ghost tells = { λ kept under maps had. keeps_index kept under maps had };

    ghost asked = { λ first old new questions later are. asked_later questions old new are first later };

    ghost asked_within = { λ old new questions are under maps had may all only. asked_within questions old new are under maps had may all only };

    ghost asked_holds = { λ old new questions are fresh under maps had. asked_keeps questions old new are fresh under maps had };

    ghost asked_bears = { λ first old new questions refusal later are was. asked_refused questions old new are first refusal later was };

    ghost asked_allowed = { λ old new questions fresh are under maps had there refusal was. asked_allowed questions old new are fresh under maps had there refusal was };
}
