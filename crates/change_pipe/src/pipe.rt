//! A pipe between the thread that reads files and the one that takes what they hold.
ghost use Rattle.std.specs.Prelude.{◌≡◌, ◌≤◌, ◌++◌, ◌∷◌, [], List, IfOk, IfErr, IfSome, IfNone, OnOk, OnErr, length};
ghost use Rattle.std.specs.Bool.{OnTrue, OnFalse};
ghost use Rattle.change_pipe.specs.Ends.{end_view};
ghost use Rattle.change_pipe.specs.declared.parcel.Parcel.{Parcel as ParcelOf};

use crate::parcel::Parcel;
use crate::rule::{Both, Ends, Line, Puts, Roles, Takes};
use crate::view::View;
use crossbeam_queue::Pass;
use osm_base::OutOfMemory;
use std::alloc::Global;
use std::marker::Model;
use std::sync::Wait;
use std::sync::atomic::{AtomicBool, AtomicU8, Ordering};
use std::thread::Parker;
use std::time::Duration;

/// The most files that may be read ahead.
pub const MAX_AHEAD: usize = 8;

/// Nobody puts yet.
const NOBODY: u8 = 0;

/// Somebody puts.
const SOMEBODY: u8 = 1;

/// Nobody waits any more for somebody who puts.
const GIVEN_UP: u8 = 2;

/// How often it is looked whether somebody puts.
const LOOKS: u32 = 100;

/// For how many milliseconds who looks for that sleeps in between.
const PAUSE: u64 = 20;

/// For how many milliseconds at most who waits sleeps, if nobody wakes it.
const SLEEP: u64 = 100;

/// Parcels on their way from one thread to another. Contracts see which pipe it is, and how many it may hold.
#[derive(Drop)]
pub struct Pipe {
    queue: Line,
    /// Who puts waits here for room.
    room: Parker,
    /// Who takes waits here for a parcel.
    ready: Parker,
    /// Nothing more will be taken.
    stopped: AtomicBool,
    /// Whether somebody puts.
    claim: AtomicU8,
}

impl Model for Pipe {
    ghost use Rattle.std.specs.Prelude.{◌≤◌};
    ghost use Rattle.crossbeam_queue.specs.Passes.{ruled_capacity};
    ghost use Rattle.change_pipe.specs.Ends.{PipeView};
    ghost use Rattle.change_pipe.specs.declared.pipe.TheConstants.{MAX_AHEAD};

    ghost Value = { PipeView };

    ghost view = { λ pipe. record { home = pipe.queue.table.shared.table_id; ahead = ruled_capacity pipe.queue } };

    ghost invariant = { λ pipe. ruled_capacity pipe.queue ≤ MAX_AHEAD };
}

/// The end at which parcels are put. Contracts see the pipe and what was put, in order; it takes no memory.
#[derive(Drop)]
pub struct Putter {
    pass: Pass<Parcel, View>,
}

impl Model for Putter {
    ghost use Rattle.std.specs.Prelude.{◌≡◌, true, false, []};
    ghost use Rattle.crossbeam_queue.specs.Passes.{view as knowledge};
    ghost use Rattle.change_pipe.specs.Ends.{EndView, end_code, end_view};
    ghost use Rattle.change_pipe.specs.Rule.{hand};

    ghost Value = { EndView };

    ghost coded = { end_code };

    ghost view = { λ end. end_view end.pass.table_id (knowledge end.pass).sent };

    ghost invariant = { λ end. (end.pass.me.1 ≡ []) × (knowledge end.pass ≡ hand true false (knowledge end.pass).sent []) };
}

/// The end at which they are taken.
#[derive(Drop)]
pub struct Taker {
    pass: Pass<Parcel, View>,
}

impl Model for Taker {
    ghost use Rattle.std.specs.Prelude.{◌≡◌, true, false, []};
    ghost use Rattle.crossbeam_queue.specs.Passes.{view as knowledge};
    ghost use Rattle.change_pipe.specs.Ends.{EndView, end_code, end_view};
    ghost use Rattle.change_pipe.specs.Rule.{hand};

    ghost Value = { EndView };

    ghost coded = { end_code };

    ghost view = { λ end. end_view end.pass.table_id (knowledge end.pass).got };

    ghost invariant = { λ end. (end.pass.me.1 ≡ []) × (knowledge end.pass ≡ hand false true [] (knowledge end.pass).got) };
}

/// A pipe that holds so many parcels at most, and its two ends.
pub fn make_pipe(alloc: Global, ahead: usize) -> Result<(Pipe, Putter, Taker), OutOfMemory>
    requires some { 1 ≤ ahead }
    requires few { ahead ≤ MAX_AHEAD }
    ensures ahead { IfOk result (λ (pipe, _, _). pipe.ahead ≡ ahead) }
    ensures putter { IfOk result (λ (pipe, putter, _). putter ≡ end_view pipe.home []) }
    ensures taker { IfOk result (λ (pipe, _, taker). taker ≡ end_view pipe.home []) }
{
    let (queue, mut pass) = Line::ruled(alloc, ahead)?;
    let other = queue.another::<Roles>(&mut pass);
    let pipe = Pipe {
        queue,
        room: Parker::new(),
        ready: Parker::new(),
        stopped: AtomicBool::new(false),
        claim: AtomicU8::new(NOBODY),
    };
    Ok((pipe, Putter { pass }, Taker { pass: other }))
}

impl Pipe {
    /// Puts a parcel behind those that were put. `Err` hands it back: the pipe was full at a moment of the call.
    pub fn put<R: Wait>(&self, rt: &R, putter: &mut Putter, parcel: Parcel) -> Result<(), Parcel>
        requires ours { putter.old.home ≡ self.now.home }
        ensures ok { OnOk result (putter.new ≡ end_view self.now.home (putter.old.list ++ parcel ∷ [])) }
        ensures err { IfErr result (λ back. (back ≡ parcel) × (putter.new ≡ putter.old)) }
        ensures full { OnErr result (self.now.ahead ≤ length putter.old.list) }
    {
        match self.queue.push_as::<Puts, R>(rt, &mut putter.pass, parcel) {
            Ok(()) => {
                self.ready.unpark();
                Ok(())
            }
            Err(back) => Err(back),
        }
    }

    /// Takes the parcel behind those that were taken. `None`: the pipe was empty at a moment of the call.
    pub fn take<R: Wait>(&self, rt: &R, taker: &mut Taker) -> Option<Parcel>
        requires ours { taker.old.home ≡ self.now.home }
        ensures some { IfSome result (λ parcel. taker.new ≡ end_view self.now.home (taker.old.list ++ parcel ∷ [])) }
        ensures none { IfNone result (taker.new ≡ taker.old) }
    {
        match self.queue.pop_as::<Takes, R>(rt, &mut taker.pass) {
            Some(parcel) => {
                self.room.unpark();
                Some(parcel)
            }
            None => None,
        }
    }

    /// Puts a parcel once there is room. `false`: nothing more will be taken, and it was not put.
    pub fn put_when_room<R: Wait>(&self, rt: &R, putter: &mut Putter, parcel: Parcel) -> bool
        requires ours { putter.old.home ≡ self.now.home }
        ensures put { OnTrue result (putter.new ≡ end_view self.now.home (putter.old.list ++ parcel ∷ [])) }
        ensures left { OnFalse result (putter.new ≡ putter.old) }
    {
        let mut waiting = parcel;
        for _ in rt.forever() {
            if self.is_stopped() {
                return false;
            }
            match self.put(rt, putter, waiting) {
                Ok(()) => return true,
                Err(back) => waiting = back,
            }
            self.room.park_timeout(rt, Duration::from_millis(SLEEP));
        }
        unreachable!()
    }

    /// Takes the next parcel once there is one.
    pub fn take_when_ready<R: Wait>(&self, rt: &R, taker: &mut Taker) -> Parcel
        requires ours { taker.old.home ≡ self.now.home }
        ensures taken { taker.new ≡ end_view self.now.home (taker.old.list ++ result ∷ []) }
    {
        for _ in rt.forever() {
            if let Some(parcel) = self.take(rt, taker) {
                return parcel;
            }
            self.ready.park_timeout(rt, Duration::from_millis(SLEEP));
        }
        unreachable!()
    }

    /// Somebody puts from now on. `false`: nobody waits for that any more.
    pub fn begin(&self) -> bool {
        let first = self
            .claim
            .compare_exchange(NOBODY, SOMEBODY, Ordering::SeqCst, Ordering::SeqCst)
            .is_ok();
        self.ready.unpark();
        first
    }

    /// Whether somebody puts. That is waited for two seconds at most, much longer than a thread takes to start: where no thread
    /// can be made, who takes would wait for ever.
    pub fn has_begun<R: Wait>(&self, rt: &R) -> bool {
        for _ in 0..LOOKS {
            let claim = self.claim.load(Ordering::SeqCst);
            if claim != NOBODY {
                return claim == SOMEBODY;
            }
            self.ready.park_timeout(rt, Duration::from_millis(PAUSE));
        }
        match self
            .claim
            .compare_exchange(NOBODY, GIVEN_UP, Ordering::SeqCst, Ordering::SeqCst)
        {
            Ok(_) => false,
            Err(claim) => claim == SOMEBODY,
        }
    }

    /// Nothing more will be taken: who waits for room waits no longer, and who puts files ends behind the one that it reads.
    pub fn stop(&self) {
        self.stopped.store(true, Ordering::SeqCst);
        self.room.unpark();
    }

    /// Whether nothing more will be taken.
    fn is_stopped(&self) -> bool {
        self.stopped.load(Ordering::SeqCst)
    }

    /// Ends the pipe. What was put and not taken is let go.
    pub fn end(self, putter: Putter, taker: Taker)
        requires putter { putter.home ≡ self.home }
        requires taker { taker.home ≡ self.home }
        ensures front { (rest : List ParcelOf) × (putter.list ≡ taker.list ++ rest) × (length rest ≤ MAX_AHEAD) }
    {
        let Putter { mut pass } = putter;
        self.queue.absorb::<Both>(&mut pass, taker.pass);
        self.queue.learn_as::<Ends>(&mut pass);
    }
}
