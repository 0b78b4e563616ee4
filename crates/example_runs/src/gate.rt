//! A gate that has readers and the updater take turns, or holds workers or a change.

use example_table::{named_row, number_in};
use outside::{Gate, GatePlace};
use std::alloc::{AllocError, Global};
use std::sync::atomic::{AtomicBool, AtomicU64, Ordering};
use std::thread;

/// What a gate holds, each for so many turns at most. Of so many changes each is held until each of the readers has asked once more, and
/// was answered, for each `step` changes before it; it is held before it is begun, or while its rows are built. A look is held until
/// the change behind those that it is to see is held. The first change is held until the file of a word is asked for, or none as 0. Each
/// of so many tickets that are built first is held until they all are.
#[derive(Clone, Copy)]
pub struct Holds {
    pub readers: u64,
    pub step: u64,
    pub changes: u64,
    pub building: bool,
    pub file: u64,
    pub workers: u64,
    pub turns: u64,
}

impl Holds {
    /// Nothing is held.
    pub const NOTHING: Holds = Holds {
        readers: 0,
        step: 1,
        changes: 0,
        building: false,
        file: 0,
        workers: 0,
        turns: 0,
    };

    /// What a row holds.
    pub fn of(word: &str, text: &str) -> Option<Holds> {
        let mut holds = Holds::NOTHING;
        let (first, rest) = named_row(text)?;
        let first = number_in(first)?;
        match word {
            "ahead-held" => holds.file = first,
            "built-held" => holds.workers = first,
            _ => return in_turn(word, first, rest),
        }
        holds.turns = number_in(rest)?;
        Some(holds)
    }
}

/// That so many readers and the updater take turns.
fn in_turn(word: &str, readers: u64, text: &str) -> Option<Holds> {
    let (step, rest) = named_row(text)?;
    let (changes, turns) = named_row(rest)?;
    let mut holds = Holds::NOTHING;
    holds.readers = readers;
    holds.step = number_in(step)?;
    holds.changes = number_in(changes)?;
    holds.building = word == "in-build";
    holds.turns = number_in(turns)?;
    Some(holds)
}

/// A gate that holds so. It passes all else at once.
#[derive(Drop)]
pub struct InTurn {
    holds: Holds,
    /// The change that is held, or was last; one more than the last once that is shown.
    stage: AtomicU64,
    shown: AtomicU64,
    looks: Vec<AtomicU64>,
    built: AtomicU64,
    asked: AtomicU64,
    missed: AtomicBool,
}

impl InTurn {
    /// One at which nothing has come yet.
    pub fn new(alloc: Global, holds: Holds) -> Result<Self, AllocError> {
        let mut looks = Vec::new(alloc);
        for _ in 0..holds.readers {
            looks.push(AtomicU64::new(0))?;
        }
        Ok(Self {
            holds,
            stage: AtomicU64::new(0),
            shown: AtomicU64::new(0),
            looks,
            built: AtomicU64::new(0),
            asked: AtomicU64::new(0),
            missed: AtomicBool::new(false),
        })
    }

    /// Says that the file of a word is asked for, the last so far.
    pub fn ask(&self, file: u32) {
        self.asked.store(u64::from(file), Ordering::SeqCst);
    }

    /// Whether something was held until the turns ran out.
    pub fn has_missed(&self) -> bool {
        self.missed.load(Ordering::SeqCst)
    }

    /// Waits until so many have come. Where the turns ran out once, nothing is held any more.
    fn hold(&self, come: &AtomicU64, number: u64) {
        for _ in 0..self.holds.turns {
            if come.load(Ordering::SeqCst) >= number || self.has_missed() {
                return;
            }
            thread::yield_now();
        }
        self.missed.store(true, Ordering::SeqCst);
    }

    /// Holds a change until each reader was answered as often as it is to be before, and stands before its next look.
    fn hold_change(&self, change: u64) {
        if change > self.holds.changes {
            return;
        }
        self.stage.store(change, Ordering::SeqCst);
        let before = change.saturating_sub(1).checked_div(self.holds.step);
        let looks = before.unwrap_or(0).saturating_add(2);
        for come in &self.looks {
            self.hold(come, looks);
        }
    }

    /// Holds a change before it is begun.
    fn begin(&self, change: u64) {
        if change == 1 && self.holds.file > 0 {
            self.hold(&self.asked, self.holds.file);
        }
        if !self.holds.building {
            self.hold_change(change);
        }
    }

    /// Holds a worker that has drawn a ticket of a change.
    fn draw(&self) {
        if self.holds.building {
            let shown = self.shown.load(Ordering::SeqCst);
            self.hold_change(shown.saturating_add(1));
        }
    }

    /// Holds a worker that has built a ticket.
    fn build(&self) {
        if self.built.fetch_add(1, Ordering::SeqCst) < self.holds.workers {
            self.hold(&self.built, self.holds.workers);
        }
    }

    /// One change more is shown.
    fn show(&self) {
        let before = self.shown.fetch_add(1, Ordering::SeqCst);
        if before.saturating_add(1) >= self.holds.changes {
            let end = self.holds.changes.saturating_add(1);
            self.stage.store(end, Ordering::SeqCst);
        }
    }

    /// Holds a look of a reader until the changes are shown that it is to see, and the one behind them is held.
    fn look(&self, reader: u64) {
        let Some(looks) = self.looks.get(reader.saturating_sub(1) as usize) else {
            return;
        };
        let before = looks.fetch_add(1, Ordering::SeqCst);
        let shown = before.saturating_mul(self.holds.step);
        if shown <= self.holds.changes {
            self.hold(&self.stage, shown.saturating_add(1));
        }
    }
}

impl Gate for InTurn {
    fn pass(&self, place: GatePlace, number: u64) {
        match place {
            GatePlace::BeforeChange => self.begin(number),
            GatePlace::Drawn => self.draw(),
            GatePlace::Built => self.build(),
            GatePlace::Published => self.show(),
            GatePlace::BeforeLook => self.look(number),
        }
    }
}
