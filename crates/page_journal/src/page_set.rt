//! Pages by their numbers.
ghost use Rattle.std.specs.Prelude.{◌≡◌, ◌≤◌, ◌<◌, ◌↔◌, None, Some, is_some, length, List, ℕ, IfSome, IsTrue, MatchOption, OnOk, OnErr};
ghost use Rattle.page_journal.specs.PageSet.{AreWithin, CanCommit, HasAll, TellsHome, padded, plain};
ghost use Rattle.page_journal.specs.Pages.{number};
ghost use Rattle.std.specs.FinMap as map;

use crate::layout::PAGE;
use osm_base::OutOfMemory;
use std::alloc::Global;
use std::collections::BTreeMap;
use std::marker::Model;

/// Pages by their numbers, which a commit writes as a whole or not at all. The zeros at the end of a page take no memory.
#[derive(Drop)]
pub struct PageSet {
    alloc: Global,
    pub(crate) pages: BTreeMap<u64, Vec<u8>>,
}

impl Model for PageSet {
    ghost use Rattle.std.specs.Prelude.{List, ℕ};
    ghost use Rattle.std.specs.Coded.{coded_list, coded_ℕ};
    ghost use Rattle.std.specs.FinMap as map;
    ghost use Rattle.page_journal.specs.PageSet.{PageMap, IsPageTree, plain};

    ghost Value = { PageMap };

    ghost coded = { map.code coded_ℕ (coded_list coded_ℕ) };

    ghost view = { λ set. map.from_sorted (plain set.pages.entries) };

    ghost invariant = { λ set. IsPageTree set.pages.entries };
}

impl PageSet {
    /// No page.
    pub fn new(alloc: Global) -> Self
        ensures empty { result ≡ map.empty }
    {
        Self {
            alloc,
            pages: BTreeMap::new(alloc),
        }
    }

    /// A page of the set. For callers outside: the program does not use it.
    pub fn get(&self, page: u64) -> Option<[u8; 4096]>
        ensures page { MatchOption result (map.get self.now page ≡ None) (λ bytes. map.get self.now page ≡ Some bytes) }
        ensures long { IfSome result (λ bytes. length bytes ≡ 4096) }
    {
        match self.pages.get(&page) {
            Some(bytes) => Some(page_of(bytes.as_slice())),
            None => None,
        }
    }

    /// Whether a commit may write the set over so many home pages, so that there are `home` from then on.
    /// For callers outside: the program does not use it.
    pub fn can_commit(&self, count: u64, home: u64) -> bool
        ensures { IsTrue result ↔ CanCommit self.now count home }
    {
        if home < count {
            return false;
        }
        if !are_within(&self.pages, home) {
            return false;
        }
        if !self.tells(home) {
            return false;
        }
        self.has_all(count, home)
    }

    // Whether page 1 is in the set and tells so many home pages.
    fn tells(&self, home: u64) -> bool
        ensures { IsTrue result ↔ TellsHome self.now home }
    {
        match self.get(1) {
            Some(page) => front_of(&page) == home,
            None => false,
        }
    }

    // Whether all pages from this one to before that one are in the set.
    fn has_all(&self, from: u64, to: u64) -> bool
        ensures { IsTrue result ↔ HasAll self.now from to }
    {
        for page in from..to {
            if !self.has(page) {
                return false;
            }
        }
        true
    }

    // Whether this page is in the set.
    fn has(&self, page: u64) -> bool
        ensures { result ≡ is_some (map.get self.now page) }
    {
        self.pages.contains_key(&page)
    }

    /// Sets one page. Where it fails, the set is as it was.
    pub fn put(&mut self, page: u64, bytes: &[u8; 4096]) -> Result<(), OutOfMemory>
        ensures ok { OnOk result (self.new ≡ map.insert self.old page bytes.now) }
        ensures err { OnErr result (self.new ≡ self.old) }
    {
        let copy = Vec::from_slice(self.alloc, bytes.as_slice())?;
        self.pages.insert(page, copy)?;
        Ok(())
    }

    /// Sets one page, which begins with these bytes and has zeros behind them. They are taken over and not copied, and the zeros
    /// are not made. Where it fails, the set is as it was.
    pub fn put_owned(&mut self, page: u64, bytes: Vec<u8>) -> Result<(), OutOfMemory>
        requires { length bytes.items ≤ 4096 }
        ensures ok { OnOk result (self.new ≡ map.insert self.old page (padded bytes.items)) }
        ensures whole { OnOk result (length bytes.items ≡ 4096 → self.new ≡ map.insert self.old page bytes.items) }
        ensures err { OnErr result (self.new ≡ self.old) }
    {
        self.pages.insert(page, bytes)?;
        Ok(())
    }
}

// The page that begins with these bytes.
fn page_of(bytes: &[u8]) -> [u8; PAGE]
    requires { length bytes.now ≤ 4096 }
    ensures { result ≡ padded bytes.now }
{
    let mut page = [0; PAGE];
    page[..bytes.len()].copy_from_slice(bytes);
    page
}

// The number at the front of a page.
fn front_of(page: &[u8]) -> u64
    requires { 8 ≤ length page.now }
    ensures { result ≡ number page.now 0 }
{
    let mut front = [0; 8];
    front.copy_from_slice(&page[0..8]);
    u64::from_le_bytes(front)
}

// Whether the numbers of all pages are from 1 to below this one.
fn are_within(pages: &BTreeMap<u64, Vec<u8>>, home: u64) -> bool
    ensures { IsTrue result ↔ AreWithin (plain pages.now.entries) home }
{
    for (number, _) in pages {
        if !is_within(*number, home) {
            return false;
        }
    }
    true
}

fn is_within(number: u64, home: u64) -> bool
    ensures { IsTrue result ↔ ((1 ≤ number) × (number < home)) }
{
    1 <= number && number < home
}
