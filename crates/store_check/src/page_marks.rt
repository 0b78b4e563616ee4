//! Which home pages of a store are in a chain, or free.
ghost use Rattle.std.specs.Prelude.{◌≡◌, ◌||◌, ◌<◌, ◌≤◌, ℕ, length, false, true, IfOk, MatchOption};
ghost use Rattle.osm_base.specs.values.Ids.{has};
ghost use Rattle.store_check.specs.Marks.{IsFirstLeft, is_marked};

use osm_base::{Ids, OutOfMemory};
use std::alloc::Global;
use std::marker::Model;

/// A mark for each home page of a store. For callers outside: the program does not use it.
#[derive(Drop)]
pub struct PageMarks {
    marks: Vec<bool>,
}

impl Model for PageMarks {
    ghost use Rattle.std.specs.Prelude.{List, Bool};

    ghost Value = { List Bool };

    ghost view = { λ own. own.marks.items };
}

impl PageMarks {
    /// So many pages without a mark.
    pub fn new(alloc: Global, pages: u64) -> Result<Self, OutOfMemory>
        ensures many { IfOk result (λ marks. length marks ≡ pages) }
        ensures none { IfOk result (λ marks. (page : ℕ) → page < length marks → is_marked marks page ≡ false) }
    {
        Ok(Self {
            marks: vec![in alloc; false; pages as usize]?,
        })
    }

    /// Marks pages, those that there are.
    pub fn mark(&mut self, pages: &Ids)
        ensures many { length self.new ≡ length self.old }
        ensures marked { (page : ℕ) → page < length self.old → is_marked self.new page ≡ (is_marked self.old page || has pages.now page) }
    {
        for page in pages.as_slice() {
            let place = *page as usize;
            if place < self.marks.len() {
                self.marks[place] = true;
            }
        }
    }

    /// The lowest page behind the root page that has no mark.
    pub fn first_left(&self) -> Option<u64>
        ensures left { MatchOption result ((page : ℕ) → 2 ≤ page → page < length self.now → is_marked self.now page ≡ true)
            (λ page. IsFirstLeft self.now page) }
    {
        let mut page: usize = 2;
        while page < self.marks.len() && self.marks[page] {
            page += 1;
        }
        if page < self.marks.len() {
            Some(page as u64)
        } else {
            None
        }
    }
}
