//! Places by numbers.
ghost use Rattle.std.specs.Prelude.{◌≡◌, ◌≢◌, ◌<◌, ℕ, [], OnErr, OnOk, length, slice_index_or};

use osm_base::OutOfMemory;
use std::alloc::Global;
use std::marker::Model;

/// So many numbers share a page.
const SPAN: usize = 256;

/// A place for each number. Room is made for the pages of those that were given one.
#[derive(Drop)]
pub struct Places {
    alloc: Global,
    pages: Vec<Page>,
}

/// The places of as many numbers as share a page: 0 until they were given one.
#[derive(Drop)]
pub struct Page {
    places: Vec<u32>,
}

impl Model for Page {
    ghost use Rattle.std.specs.Prelude.{ℕ, List};

    ghost Value = { List ℕ };

    ghost view = { λ page. page.places.items };
}

impl Page {
    // None that was given.
    fn new(alloc: Global) -> Self
        ensures { result ≡ [] }
    {
        Self {
            places: Vec::new(alloc),
        }
    }

    // Whether none was given.
    fn is_unused(&self) -> bool {
        self.places.is_empty()
    }

    fn get(&self, at: usize) -> u32
        ensures { result ≡ slice_index_or self.now at 0 }
    {
        if at >= self.places.len() {
            return 0;
        }
        self.places[at]
    }

    fn set(&mut self, at: usize, place: u32) -> Result<(), OutOfMemory>
        requires { at < 256 }
        ensures here { OnOk result (slice_index_or self.new at 0 ≡ place) }
        ensures others { (other : ℕ) → other ≢ at → slice_index_or self.new other 0 ≡ slice_index_or self.old other 0 }
        ensures err { OnErr result (self.new ≡ self.old) }
    {
        if at >= self.places.len() {
            self.places.resize(SPAN, 0)?;
        }
        self.places[at] = place;
        Ok(())
    }
}

impl Places {
    ghost use Rattle.bucket_store.specs.Places.{place_of};

    /// None that was given.
    pub fn new(alloc: Global) -> Self
        ensures { (n : ℕ) → place_of result n ≡ 0 }
    {
        Self {
            alloc,
            pages: Vec::new(alloc),
        }
    }

    /// The place of a number: 0 until it was given one.
    pub fn get(&self, n: u32) -> u32
        ensures { result ≡ place_of self.now n }
    {
        let page = n as usize / SPAN;
        if page >= self.pages.len() {
            return 0;
        }
        self.pages[page].get(n as usize % SPAN)
    }

    /// Gives a number its place. Where it fails, all is as it was.
    pub fn set(&mut self, n: u32, place: u32) -> Result<(), OutOfMemory>
        ensures here { OnOk result (place_of self.new n ≡ place) }
        ensures others { (other : ℕ) → other ≢ n → place_of self.new other ≡ place_of self.old other }
        ensures err { OnErr result (place_of self.new n ≡ place_of self.old n) }
    {
        let page = n as usize / SPAN;
        reach(self.alloc, &mut self.pages, page)?;
        self.pages[page].set(n as usize % SPAN, place)?;
        Ok(())
    }

    /// No number from this one on was given a place.
    pub fn end(&self) -> u32 {
        u32::try_from(self.pages.len().saturating_mul(SPAN)).unwrap_or(u32::MAX)
    }

    /// The next number, or the first of the next page, where the page of this one is not used.
    pub fn next(&self, n: u32) -> u32
        requires { n < 4294967295 }
        ensures { n < result }
    {
        let page = n as usize / SPAN;
        if page >= self.pages.len() || !self.pages[page].is_unused() {
            return n + 1;
        }
        (n / 256 + 1).saturating_mul(256)
    }
}

// Makes unused pages up to this one.
fn reach(alloc: Global, pages: &mut Vec<Page>, page: usize) -> Result<(), OutOfMemory>
    ensures there { OnOk result (page < length pages.new.items) }
    ensures same { (k : ℕ) → slice_index_or pages.new.items k [] ≡ slice_index_or pages.old.items k [] }
{
    while pages.len() <= page {
        pages.push(Page::new(alloc))?;
    }
    Ok(())
}
