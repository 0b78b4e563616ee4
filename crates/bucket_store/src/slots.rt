//! Buckets in the order in which they were put in, each with its number.
ghost use Rattle.std.specs.Prelude.{◌≡◌, ◌≢◌, ◌<◌, ℕ, None, Some, false, IfOk, IfSome, IsNone, IsTrue, MatchOption, OnErr, OnOk, is_some, length};
ghost use Rattle.std.specs.FinMap as map;
ghost use Rattle.bucket_store.specs.Cache.{changed_to};
ghost use Rattle.bucket_store.specs.Slots.{ArePlaced, IsSlotAt, LacksSlot, map_of};

use crate::cache::Cached;
use crate::places::Places;
use osm_base::OutOfMemory;

/// A number, and its bucket until that is taken out.
#[derive(Drop)]
pub struct Slot {
    pub number: u32,
    pub own: Option<Cached>,
}

impl Slot {
    /// Sets the value of a key in the bucket, and answers whether it is there.
    pub fn put(&mut self, key: u64, value: &[u8]) -> Result<bool, OutOfMemory>
        ensures there { IfOk result (λ there. there ≡ is_some self.old.own) }
        ensures number { self.new.number ≡ self.old.number }
        ensures ok { OnOk result ((own : Cached) → self.old.own ≡ Some own
            → self.new.own ≡ Some (changed_to own (map.insert own.bucket.values key value.now))) }
        ensures none { IfOk result (λ there. there ≡ false → self.new.own ≡ self.old.own) }
        ensures err { OnErr result (self.new.own ≡ self.old.own) }
    {
        match &mut self.own {
            Some(own) => match own.put(key, value) {
                Ok(()) => Ok(true),
                Err(fault) => Err(fault),
            },
            None => Ok(false),
        }
    }

    /// Takes a key out of the bucket, and answers whether it was in it.
    pub fn remove(&mut self, key: u64) -> Result<bool, OutOfMemory>
        ensures number { self.new.number ≡ self.old.number }
        ensures was { IfOk result (λ was. (own : Cached) → self.old.own ≡ Some own → was ≡ map.contains_key own.bucket.values key) }
        ensures taken { IfOk result (λ was. (own : Cached) → self.old.own ≡ Some own → IsTrue was
            → self.new.own ≡ Some (changed_to own (map.remove own.bucket.values key))) }
        ensures none { IfOk result (λ was. was ≡ false → self.new.own ≡ self.old.own) }
        ensures err { OnErr result (self.new.own ≡ self.old.own) }
    {
        match &mut self.own {
            Some(own) => own.remove(key),
            None => Ok(false),
        }
    }
}

/// Where the slot of this number is, if there is one.
pub fn slot_of(places: &Places, slots: &[Slot], n: u32) -> Option<usize>
    requires placed { ArePlaced places.now slots.now }
    ensures there { IfSome result (λ k. k < length slots.now) }
    ensures number { IfSome result (λ k. (slot : Slot) → IsSlotAt slots.now k slot → slot.number ≡ n) }
    ensures none { IsNone result → LacksSlot slots.now n }
{
    let k = places.get(n) as usize;
    if k >= slots.len() {
        return None;
    }
    if slots[k].number != n {
        return None;
    }
    Some(k)
}

/// The bucket of this number, if it is there.
pub fn own_of<'a>(places: &Places, slots: &'a [Slot], n: u32) -> Option<&'a Cached>
    requires placed { ArePlaced places.now slots.now }
    ensures { MatchOption result (map.get (map_of slots.now) n ≡ None) (λ own. map.get (map_of slots.now) n ≡ Some own.now) }
{
    let Some(k) = slot_of(places, slots, n) else {
        return None;
    };
    slots[k].own.as_ref()
}

/// Puts in a bucket of a number that has no slot yet.
pub fn push(
    places: &mut Places,
    slots: &mut Vec<Slot>,
    n: u32,
    own: Cached,
) -> Result<(), OutOfMemory>
    requires placed { ArePlaced places.old slots.old.items }
    requires new { LacksSlot slots.old.items n }
    ensures placed { ArePlaced places.new slots.new.items }
    ensures ok { OnOk result (map_of slots.new.items ≡ map.insert (map_of slots.old.items) n own) }
    ensures err { OnErr result (slots.new.items ≡ slots.old.items) }
{
    let Ok(place) = u32::try_from(slots.len()) else {
        return Err(OutOfMemory);
    };
    places.set(n, place)?;
    slots.push(Slot {
        number: n,
        own: Some(own),
    })?;
    Ok(())
}

/// Takes out the next bucket by rising number, from this number on.
pub fn take_next(places: &Places, slots: &mut Vec<Slot>, next: &mut u32) -> Option<(u32, Cached)>
    requires placed { ArePlaced places.now slots.old.items }
    ensures placed { ArePlaced places.now slots.new.items }
    ensures there { IfSome result (λ (n, own). map.get (map_of slots.old.items) n ≡ Some own) }
    ensures rest { IfSome result (λ (n, own). map_of slots.new.items ≡ map.remove (map_of slots.old.items) n) }
    ensures none { IsNone result → slots.new.items ≡ slots.old.items }
{
    let end = places.end();
    while *next < end {
        let n = *next;
        *next = places.next(n);
        if let Some(own) = take(places, slots, n) {
            return Some((n, own));
        }
    }
    None
}

// Takes out the bucket of this number, if it is there.
fn take(places: &Places, slots: &mut Vec<Slot>, n: u32) -> Option<Cached>
    requires placed { ArePlaced places.now slots.old.items }
    ensures placed { ArePlaced places.now slots.new.items }
    ensures there { IfSome result (λ own. map.get (map_of slots.old.items) n ≡ Some own) }
    ensures rest { IfSome result (λ own. map_of slots.new.items ≡ map.remove (map_of slots.old.items) n) }
    ensures none { IsNone result → slots.new.items ≡ slots.old.items }
{
    let Some(k) = slot_of(places, slots.as_slice(), n) else {
        return None;
    };
    slots[k].own.take()
}

/// Takes out the bucket that was put in last.
pub fn take_last(slots: &mut Vec<Slot>, places: &Places) -> Option<(u32, Cached)>
    requires placed { ArePlaced places.now slots.old.items }
    ensures placed { ArePlaced places.now slots.new.items }
    ensures there { IfSome result (λ (n, own). map.get (map_of slots.old.items) n ≡ Some own) }
    ensures rest { IfSome result (λ (n, own). map_of slots.new.items ≡ map.remove (map_of slots.old.items) n) }
    ensures none { IsNone result → map_of slots.old.items ≡ map.empty }
{
    while let Some(slot) = slots.pop() {
        let Slot { number, own } = slot;
        if let Some(own) = own {
            return Some((number, own));
        }
    }
    None
}
