//! Chains are read, and what they are to have is noted.
ghost use Rattle.std.specs.Prelude.{◌≡◌, ◌*◌, ◌⊎◌, ◌<◌, ◌≤◌, List, ℕ, None, Some, false, is_err, IfOk, IfSome, IsSome, OnOk};
ghost use Rattle.std.specs.FinMap as map;
ghost use Rattle.std.specs.Option.{IsNone};
ghost use Rattle.page_journal.specs.Journal.{home_count};
ghost use Rattle.chain_store.specs.Directories.{IsChain, IsString};
ghost use Rattle.chain_store.specs.Known.{ReadsChain};
ghost use Rattle.chain_store.specs.Marks.{marks_over, same_pages};

use super::Chains;
use crate::layout::BUCKET;
use crate::marks::same_pages;
use crate::number_map::NumberMap;
use crate::walking::{Walked, walk};
use osm_base::{Bytes, Ids, OutOfMemory, TryCopy};
use outside::Disk;
use page_journal::StoreFault;
use std::alloc::Global;

impl<'d, D: Disk> Chains<'d, D> {
    ghost use Rattle.chain_store.specs.Chains.{IsMarked, IsOpen, LoadedIs, Loads, disk_of, first_of, is_refused, journal_of, kept_of, read_of, root_of, texts_of, written_of};
    ghost use Rattle.chain_store.specs.StoreCalls.{BringsChain, ChangesString, LoadsChain, LooksAtStore, PutsString};

    /// The bytes of a chain, as the transaction has them. A bucket that is loaded again is read again.
    pub fn load(&mut self, n: u32) -> Result<Bytes, StoreFault>
        requires string { IsString (root_of self.old).buckets n }
        requires going { is_refused self.old ≡ false }
        ensures loads { LoadsChain n self.old self.new result }
        ensures looks { LooksAtStore (is_err result) self.old self.new result }
    {
        let loaded = self.loaded(n);
        self.refused = loaded.is_err();
        loaded
    }

    /// Gives a chain these bytes. The old chain is read, where the transaction has not done so.
    pub fn store(&mut self, n: u32, bytes: Bytes) -> Result<(), StoreFault>
        requires string { IsString (root_of self.old).buckets n }
        requires going { is_refused self.old ≡ false }
        ensures puts { PutsString n bytes self.old self.new result }
        ensures open { (pages : List (List ℕ)) → IsOpen pages self.old → IsOpen pages self.new }
        ensures brings { BringsChain n self.old self.new result }
        ensures changes { ChangesString self.old self.new result }
    {
        if let Err(fault) = self.bring(n) {
            self.refused = true;
            return Err(fault);
        }
        let same = self.marks(n, &bytes);
        if self.put(n, same, bytes).is_err() {
            self.refused = true;
            return Err(StoreFault::OutOfMemory);
        }
        Ok(())
    }

    /// The same, where these are the bytes that `load` gives: a page that stays as it is will not be written again.
    pub fn store_over(&mut self, n: u32, before: Bytes, bytes: Bytes) -> Result<(), StoreFault>
        requires string { IsString (root_of self.old).buckets n }
        requires going { is_refused self.old ≡ false }
        ensures puts { PutsString n bytes self.old self.new result }
        ensures open { (pages : List (List ℕ)) → IsOpen pages self.old
            → LoadedIs pages n (first_of self.old n) (map.get (written_of self.old) n) before → IsOpen pages self.new }
        ensures brings { BringsChain n self.old self.new result }
        ensures changes { ChangesString self.old self.new result }
    {
        if let Err(fault) = self.bring(n) {
            self.refused = true;
            return Err(fault);
        }
        let same = self.marks_over(n, before, &bytes);
        if self.put(n, same, bytes).is_err() {
            self.refused = true;
            return Err(StoreFault::OutOfMemory);
        }
        Ok(())
    }

    // Marks for the pages of a chain that keep their bytes, where its bytes in the store are at hand.
    fn marks(&self, n: u32, bytes: &Bytes) -> Result<Bytes, OutOfMemory>
        ensures marked { IfOk result (λ same. (pages : List (List ℕ)) → IsOpen pages self.now
            → IsMarked pages n (first_of self.now n) same bytes.now) }
        ensures exact { IfOk result (λ same. same ≡ marks_over (map.get (texts_of self.now) n) bytes.now) }
    {
        match self.texts.get(n) {
            Some(text) => same_pages(self.alloc, text.as_slice(), bytes.as_slice()),
            None => Ok(Bytes::new(self.alloc)),
        }
    }

    // The same, where these are the bytes that `load` gives. What was written before stands in no page.
    fn marks_over(&self, n: u32, before: Bytes, bytes: &Bytes) -> Result<Bytes, OutOfMemory>
        ensures marked { IfOk result (λ same. (pages : List (List ℕ)) → IsOpen pages self.now
            → LoadedIs pages n (first_of self.now n) (map.get (written_of self.now) n) before
            → IsMarked pages n (first_of self.now n) same bytes.now) }
        ensures exact { map.get (written_of self.now) n ≡ None → IfOk result (λ same. same ≡ same_pages before bytes.now) }
    {
        if self.written.get(n).is_some() {
            return self.marks(n, bytes);
        }
        same_pages(self.alloc, before.as_slice(), bytes.as_slice())
    }

    // Gives a chain that was read these bytes, with marks for the pages that keep theirs, where memory was found for them.
    fn put(
        &mut self,
        n: u32,
        same: Result<Bytes, OutOfMemory>,
        bytes: Bytes,
    ) -> Result<(), OutOfMemory>
        requires string { IsString (root_of self.old).buckets n }
        requires brought { IsSome (map.get (read_of self.old) n) }
        ensures puts { PutsString n bytes self.old self.new result }
        ensures open { (pages : List (List ℕ)) → IsOpen pages self.old
            → IfOk same (λ same. IsMarked pages n (first_of self.old n) same bytes) → IsOpen pages self.new }
        ensures journal { journal_of self.new ≡ journal_of self.old }
        ensures kept { kept_of self.new ≡ kept_of self.old }
        ensures root { root_of self.new ≡ root_of self.old }
        ensures read { read_of self.new ≡ read_of self.old }
        ensures going { is_refused self.new ≡ is_refused self.old }
    {
        let same = match same {
            Ok(same) => same,
            Err(fault) => return Err(fault),
        };
        if self.before.put(n, same).is_err() {
            return Err(OutOfMemory);
        }
        if self.written.put(n, bytes).is_err() {
            self.before.take_or(n, Bytes::new(self.alloc));
            return Err(OutOfMemory);
        }
        Ok(())
    }

    // What was written, or else what stands in the store.
    fn loaded(&mut self, n: u32) -> Result<Bytes, StoreFault>
        requires string { IsString (root_of self.old).buckets n }
        ensures loads { LoadsChain n self.old self.new result }
        ensures looks { LooksAtStore (is_refused self.old) self.old self.new result }
    {
        if let Some(own) = self.written.get(n) {
            return Ok(own.copy(self.alloc)?);
        }
        if let Some(bytes) = self.held(n) {
            return Ok(bytes.copy(self.alloc)?);
        }
        self.fetch(n)
    }

    // The bytes of a chain that was read, where they are known.
    fn held(&self, n: u32) -> Option<&Bytes>
        ensures held { IfSome result (λ bytes. map.get (texts_of self.now) n ≡ Some bytes.now) }
        ensures read { IsSome result → IsSome (map.get (read_of self.now) n) }
        ensures unread { IsNone result → n < 16 → map.get (read_of self.now) n ≡ None }
    {
        if self.read.get(n).is_none() {
            return None;
        }
        self.texts.get(n)
    }

    // Reads a chain of the store, where that was not done yet.
    pub(super) fn bring(&mut self, n: u32) -> Result<(), StoreFault>
        requires string { IsChain n }
        ensures brings { BringsChain n self.old self.new result }
        ensures looks { LooksAtStore (is_refused self.old) self.old self.new result }
    {
        if self.read.get(n).is_some() {
            return Ok(());
        }
        match self.fetch(n) {
            Ok(_) => Ok(()),
            Err(fault) => Err(fault),
        }
    }

    // Reads a chain of the store, and keeps which pages it has.
    fn fetch(&mut self, n: u32) -> Result<Bytes, StoreFault>
        requires string { IsChain n }
        ensures answers { (pages : List (List ℕ)) → IsOpen pages self.old → Loads pages n (first_of self.old n) None result }
        ensures reads { OnOk result (ReadsChain (4096 * home_count (journal_of self.old)) n (read_of self.old) (read_of self.new)
            (disk_of self.old) (disk_of self.new)) }
        ensures known { OnOk result (IsSome (map.get (read_of self.new) n)) }
        ensures looks { LooksAtStore (is_refused self.old) self.old self.new result }
    {
        let first = self.kept.first(n);
        let walked = match walk(self.alloc, &mut self.journal, first, n) {
            Ok(walked) => walked,
            Err(fault) => return Err(fault),
        };
        let Walked { pages, bytes } = walked;
        let bytes = Bytes::from_vec(bytes);
        hold(self.alloc, &mut self.texts, n, &bytes)?;
        self.read.put(n, Ids::from_vec(pages))?;
        Ok(bytes)
    }
}

// Keeps the bytes of a chain, where it is none of a bucket.
fn hold(
    alloc: Global,
    texts: &mut NumberMap<Bytes>,
    n: u32,
    bytes: &Bytes,
) -> Result<(), OutOfMemory>
    ensures held { OnOk result (n < 16 → IsSome (map.get texts.new n)) }
    ensures more { (texts.new ≡ map.insert texts.old n bytes.now) ⊎ (texts.new ≡ texts.old) }
    ensures none { 16 ≤ n → texts.new ≡ texts.old }
{
    if n >= BUCKET {
        return Ok(());
    }
    let copy = bytes.copy(alloc)?;
    texts.put(n, copy)
}
