//! What is kept in memory of an open store.
ghost use Rattle.std.specs.Prelude.{◌≡◌, ◌⊎◌, ◌*◌, ◌-◌, ◌/◌, ◌%◌, ◌≤◌, ◌<◌, ℕ, length};
ghost use Rattle.page_journal.specs.Pages.{number};
ghost use Rattle.chain_store.specs.Directories.{IsChain, root_in};
ghost use Rattle.chain_store.specs.Kept.{AreLong, buckets_in, bytes_at, pages_at};

use crate::Root;
use crate::layout::{
    BUCKET, BUCKETS_AT, CHANGES_AT, DIRECTORY, FIRSTS_AT, FORMAT_AT, FREE, FREE_AT, MAX_BUCKETS,
    STATE_AT,
};
use crate::numbers::number_at;
use crate::walking::Walked;

/// The root page and the directories of a store.
#[derive(Drop)]
pub struct Kept {
    front: Vec<u8>,
    directories: Vec<Walked>,
    ghost page: { length front.items ≡ 4096 },
    ghost eight: { length directories.items ≡ 8 },
    ghost few: { buckets_in front.items ≤ 65536 },
    ghost long: { AreLong directories.items (buckets_in front.items) },
}

impl Kept {
    ghost use Rattle.chain_store.specs.Store.{kept_first};

    /// The root page and the directories that were read.
    pub(crate) fn of(front: Vec<u8>, directories: Vec<Walked>) -> Self
        requires page { length front.items ≡ 4096 }
        requires eight { length directories.items ≡ 8 }
        requires few { buckets_in front.items ≤ 65536 }
        requires long { AreLong directories.items (buckets_in front.items) }
        ensures front { result.front.items ≡ front.items }
        ensures directories { result.directories.items ≡ directories.items }
    {
        Kept { front, directories }
    }

    /// The root page.
    pub(crate) fn front(&self) -> &[u8]
        ensures { result.now ≡ self.now.front.items }
    {
        self.front.as_slice()
    }

    /// The directories of the eight maps.
    pub(crate) fn directories(&self) -> &[Walked]
        ensures { result.now ≡ self.now.directories.items }
    {
        self.directories.as_slice()
    }

    /// The fields that are not chains.
    pub fn root(&self) -> Root
        ensures root { result ≡ root_in self.now.front.items }
    {
        let front = self.front.as_slice();
        Root {
            format: number_at(front, FORMAT_AT),
            state: number_at(front, STATE_AT),
            changes: number_at(front, CHANGES_AT),
            buckets: number_at(front, BUCKETS_AT),
        }
    }

    /// The first page of a chain, or 0 where it is empty.
    pub fn first(&self, n: u32) -> u64
        requires { (n ≡ 4294967295) ⊎ IsChain n }
        ensures first { result ≡ kept_first self.now n }
    {
        let front = self.front.as_slice();
        if n == FREE {
            return number_at(front, FREE_AT);
        }
        if n < BUCKET {
            return number_at(front, FIRSTS_AT + 8 * n as usize);
        }
        let (map, bucket) = split(n);
        first_of_bucket(&self.directories[map].bytes, bucket)
    }
}

// The map of a bucket's chain, and the bucket.
fn split(n: u32) -> (usize, usize)
    requires { 16 ≤ n }
    ensures map { result.0 ≡ (n - 16) / 65536 }
    ensures bucket { result.1 ≡ (n - 16) % 65536 }
{
    let place = n - BUCKET;
    (
        (place / MAX_BUCKETS) as usize,
        (place % MAX_BUCKETS) as usize,
    )
}

// The first page of a bucket, or 0 behind the end of the directory.
fn first_of_bucket(directory: &[u8], bucket: usize) -> u64
    requires bucket { bucket < 65536 }
    requires whole { (count : ℕ) × (length directory.now ≡ 8 * count) }
    ensures { result ≡ number directory.now (8 * bucket) }
{
    if directory.len() < 8 * bucket + 8 {
        return 0;
    }
    number_at(directory, 8 * bucket)
}
