//! A publisher that counts its versions.
ghost use Rattle.std.specs.Prelude.{◌≡◌, ◌+◌, [], length};

use crate::refusal::Refusal;
use osm_base::{Delta, RowChanges};
use std::sync::Wait;
use table_versions::{Publisher, Told};

/// The most versions that an example has.
const MOST: u64 = 1_000;

/// A publisher, and the number of its last version. End it by `end`.
pub struct Shows {
    publisher: Publisher,
    version: u64,
    ghost counted: { version ≡ publisher.front.base + length publisher.front.log },
}

impl Shows {
    /// A publisher that has published nothing.
    pub fn new(publisher: Publisher, version: u64) -> Self
        requires base { publisher.front.base ≡ version }
        requires empty { publisher.front.log ≡ [] }
        ensures publisher { result.publisher ≡ publisher }
    {
        Self { publisher, version }
    }

    /// Publishes changes.
    pub fn publish<R: Wait>(&mut self, rt: &R, changes: RowChanges) -> Result<(), Refusal>
        ensures book { self.new.publisher.front.book ≡ self.old.publisher.front.book }
    {
        if self.version >= MOST {
            return Err(Refusal::NoRow);
        }
        let version = self.version + 1;
        match self.publisher.publish(rt, Delta { version, changes }) {
            Ok(()) => {
                self.version = version;
                Ok(())
            }
            Err(_) => Err(Refusal::OutOfMemory),
        }
    }

    /// What was published.
    pub fn tell(&mut self) -> Told
        ensures told { result ≡ self.old.publisher.front }
        ensures same { self.new.publisher ≡ self.old.publisher }
    {
        self.publisher.tell()
    }

    /// Ends it.
    pub fn end<R: Wait>(self, rt: &R) {
        let Self {
            publisher,
            version: _version,
        } = self;
        publisher.end(rt);
    }
}
