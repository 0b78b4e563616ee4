//! The state of the machine.
ghost use Rattle.std.specs.Prelude.{◌≡◌, ◌+◌, ◌<◌, ◌≤◌, length, nat_lt, replicate, IfOk, OnOk, OnErr, ◌++◌};
ghost use Rattle.stage_core.specs.Core.{Core, after, all_ended, begun, is_possible, new_round, new_worker};
ghost use Rattle.stage_core.specs.Promise.{Grows, Promise};
ghost use Rattle.stage_core.specs.declared.event.Event.TheVariants.{Draw, Build, End, Commit, Publish, Ack, Enter, Crash};

use crate::Event;
use crate::worker::Worker;
use osm_base::OutOfMemory;
use std::alloc::Global;
use std::marker::Model;

/// A state that events reached. Proofs see the whole of it.
#[derive(Drop)]
pub struct CoreState {
    tickets: u32,
    next: u64,
    workers: Vec<Worker>,
    committed: u64,
    acked: u64,
    published: u64,
    owed: bool,
    seen: Vec<u64>,
}

impl Model for CoreState {
    ghost use Rattle.stage_core.specs.Core.{Core};
    ghost use Rattle.stage_core.specs.Reached.{IsReached};

    ghost Value = { Core };

    ghost view = { λ s. record {
      tickets = s.tickets;
      next = s.next;
      workers = s.workers.items;
      committed = s.committed;
      acked = s.acked;
      published = s.published;
      owed = s.owed;
      seen = s.seen.items;
    } };

    ghost invariant = { λ s. IsReached record {
      tickets = s.tickets;
      next = s.next;
      workers = s.workers.items;
      committed = s.committed;
      acked = s.acked;
      published = s.published;
      owed = s.owed;
      seen = s.seen.items;
    } };
}

impl CoreState {
    /// The first state: no ticket is drawn.
    pub fn new(alloc: Global, n: u32, workers: u32, readers: u32) -> Result<Self, OutOfMemory>
        ensures first { IfOk result (λ state. state ≡ begun n workers readers) }
    {
        Ok(Self {
            tickets: n,
            next: 0,
            workers: new_workers(alloc, workers)?,
            committed: 0,
            acked: 0,
            published: 0,
            owed: false,
            seen: new_readers(alloc, readers)?,
        })
    }

    /// Takes a step. `false`: it is not possible, and the state stays.
    pub fn step(&mut self, event: Event) -> Result<bool, OutOfMemory>
        ensures possible { IfOk result (λ done. done ≡ is_possible self.old event) }
        ensures state { OnOk result (self.new ≡ after self.old event) }
        ensures grows { Grows self.old self.new }
        ensures promise { Promise self.new }
        ensures err { OnErr result (self.new ≡ self.old) }
    {
        let _tickets = self.tickets;
        self.take(event)
    }

    fn take(&mut self, event: Event) -> Result<bool, OutOfMemory>
        ensures possible { IfOk result (λ done. done ≡ is_possible self.old event) }
        ensures state { OnOk result (self.new ≡ after self.old event) }
        ensures err { OnErr result (self.new ≡ self.old) }
    {
        match event {
            Event::Draw(worker) => self.draw(worker),
            Event::Build(worker) => Ok(self.build(worker)),
            Event::End(worker) => Ok(self.end(worker)),
            Event::Commit => Ok(self.commit()),
            Event::Publish => Ok(self.publish()),
            Event::Ack => Ok(self.ack()),
            Event::Enter(reader) => Ok(self.enter(reader)),
            Event::Crash => {
                self.crash();
                Ok(true)
            }
        }
    }

    fn draw(&mut self, number: u32) -> Result<bool, OutOfMemory>
        ensures possible { IfOk result (λ done. done ≡ is_possible self.old (Draw number)) }
        ensures state { OnOk result (self.new ≡ after self.old (Draw number)) }
        ensures err { OnErr result (self.new ≡ self.old) }
    {
        let index = number as usize;
        if index >= self.workers.len() || self.workers[index].is_dry() {
            return Ok(false);
        }
        self.workers[index].draw(self.tickets, self.next)?;
        self.next += 1;
        Ok(true)
    }

    fn build(&mut self, number: u32) -> bool
        ensures possible { result ≡ is_possible self.old (Build number) }
        ensures state { self.new ≡ after self.old (Build number) }
    {
        let index = number as usize;
        if index >= self.workers.len() || !self.workers[index].can_build() {
            return false;
        }
        self.workers[index].build();
        true
    }

    fn end(&mut self, number: u32) -> bool
        ensures possible { result ≡ is_possible self.old (End number) }
        ensures state { self.new ≡ after self.old (End number) }
    {
        let index = number as usize;
        if index >= self.workers.len() || !self.workers[index].can_end() {
            return false;
        }
        self.workers[index].end();
        true
    }

    fn commit(&mut self) -> bool
        ensures possible { result ≡ is_possible self.old Commit }
        ensures state { self.new ≡ after self.old Commit }
    {
        if !have_all_ended(self.workers.as_slice()) || self.owed || self.committed >= 1 << 63 {
            return false;
        }
        self.next = 0;
        reset_all(self.workers.as_mut_slice());
        self.committed += 1;
        self.owed = true;
        true
    }

    fn publish(&mut self) -> bool
        ensures possible { result ≡ is_possible self.old Publish }
        ensures state { self.new ≡ after self.old Publish }
    {
        if self.owed || self.published >= self.committed {
            return false;
        }
        self.published += 1;
        true
    }

    fn ack(&mut self) -> bool
        ensures possible { result ≡ is_possible self.old Ack }
        ensures state { self.new ≡ after self.old Ack }
    {
        if !self.owed {
            return false;
        }
        self.acked = self.committed;
        self.owed = false;
        true
    }

    fn enter(&mut self, number: u32) -> bool
        ensures possible { result ≡ is_possible self.old (Enter number) }
        ensures state { self.new ≡ after self.old (Enter number) }
    {
        let index = number as usize;
        if index >= self.seen.len() {
            return false;
        }
        self.seen[index] = self.published;
        true
    }

    fn crash(&mut self)
        ensures state { self.new ≡ after self.old Crash }
    {
        self.next = 0;
        reset_all(self.workers.as_mut_slice());
        self.owed = false;
        self.published = self.committed;
        self.seen.as_mut_slice().fill(self.committed);
    }
}

fn new_workers(alloc: Global, count: u32) -> Result<Vec<Worker>, OutOfMemory>
    ensures fresh { IfOk result (λ workers. workers.items ≡ replicate count new_worker) }
{
    let mut workers = Vec::with_capacity(alloc, count as usize)?;
    for _ in 0..count {
        workers.push(Worker::new(alloc))?;
    }
    Ok(workers)
}

fn new_readers(alloc: Global, count: u32) -> Result<Vec<u64>, OutOfMemory>
    ensures fresh { IfOk result (λ seen. seen.items ≡ replicate count 0) }
{
    Ok(vec![in alloc; 0u64; count as usize]?)
}

fn have_all_ended(workers: &[Worker]) -> bool
    ensures all { result ≡ all_ended workers.now }
{
    workers.iter().all(|worker| worker.has_ended())
}

fn reset_all(workers: &mut [Worker])
    ensures fresh { workers.new ≡ replicate (length workers.old) new_worker }
{
    for worker in workers.iter_mut() {
        worker.reset();
    }
}
