//! A worker of the machine.
ghost use Rattle.std.specs.Prelude.{◌≡◌, ◌+◌, ◌<◌, ◌&&◌, not, true, ◌==◌, length, nat_lt, replicate, take, IfOk, OnOk, OnErr, ◌++◌, ◌∷◌, []};
ghost use Rattle.stage_core.specs.Core.{drawn, new_worker};

use osm_base::OutOfMemory;
use std::alloc::Global;
use std::marker::Model;

/// The tickets that a worker drew, and what it did with them.
#[derive(Drop)]
pub struct Worker {
    tickets: Vec<u32>,
    built: usize,
    dry: bool,
    ended: bool,
}

impl Model for Worker {
    ghost use Rattle.stage_core.specs.Core.{WorkerOf};

    ghost Value = { WorkerOf };

    ghost view = { λ w. record { tickets = w.tickets.items; built = w.built; dry = w.dry; ended = w.ended } };
}

impl Worker {
    /// A worker that drew nothing.
    pub fn new(alloc: Global) -> Self
        ensures fresh { result ≡ new_worker }
    {
        Self {
            tickets: Vec::new(alloc),
            built: 0,
            dry: false,
            ended: false,
        }
    }

    /// The same, in place.
    pub fn reset(&mut self)
        ensures fresh { self.new ≡ new_worker }
    {
        self.tickets.clear();
        self.built = 0;
        self.dry = false;
        self.ended = false;
    }

    /// Whether it found no ticket more.
    pub fn is_dry(&self) -> bool
        ensures dry { result ≡ self.now.dry }
    {
        self.dry
    }

    /// Whether it ended.
    pub fn has_ended(&self) -> bool
        ensures ended { result ≡ self.now.ended }
    {
        self.ended
    }

    /// Draws a number.
    pub fn draw(&mut self, tickets: u32, next: u64) -> Result<(), OutOfMemory>
        ensures ok { OnOk result (self.new ≡ drawn tickets next self.old) }
        ensures err { OnErr result (self.new ≡ self.old) }
    {
        if next < u64::from(tickets) {
            self.tickets.push(next as u32)?;
        } else {
            self.dry = true;
        }
        Ok(())
    }

    /// Whether a ticket is left to build.
    pub fn can_build(&self) -> bool
        ensures possible { result ≡ nat_lt self.now.built (length self.now.tickets) }
    {
        self.built < self.tickets.len()
    }

    /// Builds its first ticket that is not built.
    pub fn build(&mut self)
        requires possible { self.old.built < length self.old.tickets }
        ensures built { self.new ≡ record self.old { built = self.old.built + 1 } }
    {
        self.built += 1;
    }

    /// Whether it may end.
    pub fn can_end(&self) -> bool
        ensures possible { result ≡ self.now.dry && (self.now.built == length self.now.tickets) && not self.now.ended }
    {
        self.dry && self.built == self.tickets.len() && !self.ended
    }

    /// Ends.
    pub fn end(&mut self)
        ensures ended { self.new ≡ record self.old { ended = true } }
    {
        self.ended = true;
    }
}
