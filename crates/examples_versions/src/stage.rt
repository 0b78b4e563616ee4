//! A publisher and one of its readers.
ghost use Rattle.std.specs.Prelude.{◌≡◌};

use crate::refusal::Refusal;
use crate::shows::Shows;
use crate::texts::{push_answer, push_counted, push_shut};
use map_query::Query;
use osm_base::RowChanges;
use std::alloc::Global;
use std::sync::Wait;
use table_versions::{LookRefused, MapReader, Reads};

/// A publisher, and a reader of what it publishes. End it by `end`.
pub struct Stage {
    shows: Shows,
    reader: MapReader,
    ghost same: { reader.seen.book ≡ shows.publisher.front.book },
}

impl Stage {
    /// A publisher and its reader.
    pub fn new(shows: Shows, reader: MapReader) -> Self
        requires { reader.seen.book ≡ shows.publisher.front.book }
    {
        Self { shows, reader }
    }

    /// Publishes changes.
    pub fn publish<R: Wait>(&mut self, rt: &R, changes: RowChanges) -> Result<(), Refusal> {
        self.shows.publish(rt, changes)
    }

    /// Tells the reader what was published.
    pub fn tell(&mut self) {
        self.reader.learn(self.shows.tell());
    }

    /// Adds what the reader answers to a query.
    pub fn look(&mut self, alloc: Global, query: &Query, out: &mut String) -> Result<(), Refusal> {
        look(alloc, &mut self.reader, query, out)
    }

    /// Adds how many rows of a table it counts.
    pub fn count(&mut self, table: u32, out: &mut String) -> Result<(), Refusal> {
        count(&mut self.reader, table, out)
    }

    /// Ends the publisher; the reader is left.
    pub fn end<R: Wait>(self, rt: &R) -> MapReader {
        let Self { shows, reader } = self;
        shows.end(rt);
        reader
    }
}

/// Adds what a reader answers to a query.
fn look(
    alloc: Global,
    reader: &mut MapReader,
    query: &Query,
    out: &mut String,
) -> Result<(), Refusal>
    ensures book { reader.new.seen.book ≡ reader.old.seen.book }
{
    match reader.look(alloc, query) {
        Ok(answer) => push_answer(alloc, &answer, out),
        Err(LookRefused::Shut) => push_shut(out),
        Err(LookRefused::OutOfMemory) => Err(Refusal::OutOfMemory),
    }
}

/// Adds how many rows of a table a reader counts.
pub fn count(reader: &mut MapReader, table: u32, out: &mut String) -> Result<(), Refusal>
    ensures book { reader.new.seen.book ≡ reader.old.seen.book }
{
    match reader.count(table) {
        Some(counted) => push_counted(counted, out),
        None => push_shut(out),
    }
}
