//! What many readers are to see: the changes of the tables, and what each version answers.
use crate::notation::{change_tables, changes_of, queries_of, tables_of};
use crate::refusal::Refusal;
use crate::texts::push_found;
use map_query::{Queries, Query, answer};
use osm_base::{RowChanges, Tables};
use std::alloc::Global;
use std::sync::atomic::{AtomicBool, Ordering};
use std::thread;
use style_read::Style;

/// The rows that the tables begin with: two places, and a line that is wide.
const FIRST: &str = "0:1:0:0,0 0:2:0:10000000,0 1:9:0:-1000000000,0;1000000000,10000000";

/// What is asked: counts, one row, and boxes near the first place and around a line.
const QUERIES: &str =
    "count cafes\\ncount roads\\nrow cafes n 1\\nbox cafes -1 -1 1 1\\nbox roads 0 0 1 1\\nbox cafes -180 -90 180 90";

/// A version: what it answers, a line for each query, and whether a reader saw it.
#[derive(Drop)]
struct Version {
    truth: String,
    seen: AtomicBool,
}

/// The queries, the versions, and how often readers ask at most.
#[derive(Drop)]
pub struct Plan {
    pub queries: Queries,
    versions: Vec<Version>,
    pub turns: u64,
}

impl Plan {
    /// The plan of so many changes.
    pub fn new(alloc: Global, style: &Style, changes: u64, turns: u64) -> Result<Self, Refusal> {
        let mut plan = Self {
            queries: queries_of(alloc, style, QUERIES)?,
            versions: Vec::new(alloc),
            turns,
        };
        plan.add_versions(alloc, style, changes)?;
        Ok(plan)
    }

    /// Adds the first version, and one for each change.
    fn add_versions(&mut self, alloc: Global, style: &Style, changes: u64) -> Result<(), Refusal> {
        let mut tables = first_tables(alloc)?;
        self.add_version(alloc, style, &tables)?;
        for version in 1..=changes {
            change_to(alloc, &mut tables, version)?;
            self.add_version(alloc, style, &tables)?;
        }
        Ok(())
    }

    /// Adds a version with these tables.
    fn add_version(
        &mut self,
        alloc: Global,
        style: &Style,
        tables: &Tables,
    ) -> Result<(), Refusal> {
        let truth = truth_of(alloc, style, tables, self.queries.as_slice())?;
        let seen = AtomicBool::new(false);
        self.versions.push(Version { truth, seen })?;
        Ok(())
    }

    /// The number of the last version.
    pub fn last(&self) -> u64 {
        (self.versions.len() as u64).saturating_sub(1)
    }

    /// The version with a number.
    fn version(&self, number: u64) -> Option<&Version> {
        self.versions.get(number as usize)
    }

    /// Whether this is what a version answers to a query, by its number.
    pub fn is_true(&self, version: u64, query: usize, found: &str) -> bool {
        match self.version(version) {
            Some(version) => version.truth.lines().nth(query) == Some(found),
            None => false,
        }
    }

    /// Marks a version as seen.
    pub fn mark(&self, version: u64) {
        if let Some(version) = self.version(version) {
            version.seen.store(true, Ordering::SeqCst);
        }
    }

    /// Waits until a version was seen, so many turns at most.
    pub fn hold(&self, version: u64) {
        let Some(version) = self.version(version) else {
            return;
        };
        for _ in 0..self.turns {
            if version.seen.load(Ordering::SeqCst) {
                return;
            }
            thread::yield_now();
        }
    }

    /// How many versions were seen.
    pub fn count_seen(&self) -> usize {
        self.versions
            .iter()
            .filter(|version| version.seen.load(Ordering::SeqCst))
            .count()
    }
}

/// The tables that all begin with.
pub fn first_tables(alloc: Global) -> Result<Tables, Refusal> {
    tables_of(alloc, FIRST)
}

/// Changes tables to a version.
fn change_to(alloc: Global, tables: &mut Tables, version: u64) -> Result<(), Refusal> {
    let words = words_to(alloc, version)?;
    change_tables(alloc, tables, words.as_str())
}

/// The changes to a version.
pub fn changes_to(alloc: Global, version: u64) -> Result<RowChanges, Refusal> {
    let words = words_to(alloc, version)?;
    changes_of(alloc, words.as_str())
}

/// The words of the changes to a version: a place goes and another comes, so that as many are there; one moves into or
/// out of the first box; the line is drawn anew.
fn words_to(alloc: Global, version: u64) -> Result<String, Refusal> {
    let comes = version.saturating_add(2);
    let goes = version.saturating_add(1);
    let lon = if version % 2 == 0 { 0 } else { 20_000_000 };
    let lat = version;
    Ok(format!(in alloc;
        "0:{goes}:- 0:{comes}:{version}:5000000,{lat} 0:1:{version}:{lon},0 1:9:{version}:-1000000000,{lat};1000000000,10000000"
    )?)
}

/// What tables answer to queries, a line for each.
fn truth_of(
    alloc: Global,
    style: &Style,
    tables: &Tables,
    queries: &[Query],
) -> Result<String, Refusal> {
    let mut truth = String::new(alloc);
    for query in queries {
        push_truth(alloc, style, tables, query, &mut truth)?;
    }
    Ok(truth)
}

/// Adds the line of what tables answer to a query.
fn push_truth(
    alloc: Global,
    style: &Style,
    tables: &Tables,
    query: &Query,
    truth: &mut String,
) -> Result<(), Refusal> {
    let found = answer(alloc, style, tables, query)?;
    push_found(alloc, &found, truth)?;
    truth.push('\n')?;
    Ok(())
}
