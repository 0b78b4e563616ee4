//! A line that tells who waits before a terminal how far a run is.

use std::alloc::{AllocError, Global};
use std::rt::Clock;
use std::sync::atomic::{AtomicU64, Ordering};
use std::time::{Duration, Instant};

/// How many milliseconds a stretch has: the line is renewed at most once in each.
const STRETCH: u32 = 200;

/// The first stretch in which a line is told: a run that ends within a second tells nothing.
const FIRST: u64 = 5;

/// Goes back to the line's beginning and takes away what stands there.
const WIPE: &str = "\r\x1b[K";

/// The most characters of a file's name that are told, so that the line fits a terminal.
const NAME_CHARS: usize = 40;

/// The line, on standard error. It is no part of what a run answers: no clause speaks of it, and where it cannot be printed
/// the run goes on.
#[derive(Drop)]
pub struct Progress<R> {
    rt: R,
    alloc: Global,
    // When the run began, where it tells anything.
    start: Option<Instant>,
    // The last stretch in which a line was told.
    told: AtomicU64,
    // Whether a line stands: 1, or 0.
    stands: AtomicU64,
}

impl<R: Clock + Eprint> Progress<R> {
    /// Of a run that begins now, and tells where `tells` says so and there is a clock.
    pub fn new(rt: R, alloc: Global, tells: bool) -> Self {
        let start = if tells { Instant::now(&rt).ok() } else { None };
        Self {
            rt,
            alloc,
            start,
            told: AtomicU64::new(0),
            stands: AtomicU64::new(0),
        }
    }

    /// How long the run has taken, where it tells.
    pub(crate) fn passed(&self) -> Option<Duration> {
        self.start?.elapsed(&self.rt).ok()
    }

    // How long the run has taken, where a line is due. Of threads that ask within one stretch one alone is answered.
    fn due(&self) -> Option<Duration> {
        let passed = self.passed()?;
        let stretch = stretch_of(passed);
        let told = self.told.load(Ordering::SeqCst);
        if stretch < FIRST || stretch <= told {
            return None;
        }
        self.told
            .compare_exchange(told, stretch, Ordering::SeqCst, Ordering::SeqCst)
            .ok()?;
        Some(passed)
    }

    // Puts a text in the place of the line that stands.
    fn show(&self, text: Result<String, AllocError>) {
        if let Ok(text) = text {
            self.stands.store(1, Ordering::SeqCst);
            let _ = self.rt.eprint(text.as_str());
        }
    }

    /// Tells how many objects have their rows.
    pub(crate) fn tell_built(&self, count: u64) {
        if self.due().is_some() {
            self.show(built(self.alloc, count));
        }
    }

    /// Tells how far a file is read.
    pub(crate) fn tell_reading(&self, reading: Reading) {
        if let Some(passed) = self.due() {
            self.show(reading.text(self.alloc, passed));
        }
    }

    /// Takes the line away, where one stands.
    pub fn wipe(&self) {
        if self.stands.swap(0, Ordering::SeqCst) == 1 {
            let _ = self.rt.eprint(WIPE);
        }
    }
}

/// How far a file is read: its path; how many bytes were read and how many it has, where it tells that; and how long the run
/// had taken when it was opened.
#[derive(Clone, Copy)]
pub(crate) struct Reading<'p> {
    pub(crate) path: &'p str,
    pub(crate) done: u64,
    pub(crate) len: Option<u64>,
    pub(crate) since: Duration,
}

impl Reading<'_> {
    // The text of the line.
    fn text(&self, alloc: Global, passed: Duration) -> Result<String, AllocError> {
        let name = name_of(self.path);
        let speed = per_second(self.done, passed.saturating_sub(self.since)) / 1_000_000;
        match self.len {
            Some(len) => {
                let percent = percent_of(self.done, len);
                format!(in alloc; "{WIPE}reading {name} {percent} % · {speed} MB/s")
            }
            None => {
                let megabytes = self.done / 1_000_000;
                format!(in alloc; "{WIPE}reading {name} {megabytes} MB · {speed} MB/s")
            }
        }
    }
}

// The text of the line that tells how many objects have their rows.
fn built(alloc: Global, count: u64) -> Result<String, AllocError> {
    let (thousands, ones) = (count / 1000, count % 1000);
    let (millions, thousands_left) = (thousands / 1000, thousands % 1000);
    if millions > 0 {
        format!(in alloc; "{WIPE}rows of {millions},{thousands_left:03},{ones:03} objects built")
    } else if thousands > 0 {
        format!(in alloc; "{WIPE}rows of {thousands},{ones:03} objects built")
    } else {
        format!(in alloc; "{WIPE}rows of {ones} objects built")
    }
}

// The stretch that a time falls into, counted from 0.
fn stretch_of(passed: Duration) -> u64 {
    let whole = passed.as_secs().saturating_mul(u64::from(1000 / STRETCH));
    whole.saturating_add(u64::from(passed.subsec_millis() / STRETCH))
}

// So many a second, of what was done in this time.
fn per_second(done: u64, time: Duration) -> u64 {
    let millis = time
        .as_secs()
        .saturating_mul(1000)
        .saturating_add(u64::from(time.subsec_millis()));
    done.saturating_mul(1000) / millis.max(1)
}

// How many hundredths of a length are done: a file may have become longer since it told its length.
fn percent_of(done: u64, len: u64) -> u64 {
    (done.saturating_mul(100) / len.max(1)).min(100)
}

// The last part of a path, cut to what a line can show. One that would move the cursor is not shown.
fn name_of(path: &str) -> &str {
    let name = match path.rsplit_once('/') {
        Some((_, name)) => name,
        None => path,
    };
    if name.chars().any(|c| c.is_control()) {
        return "a file";
    }
    match name.char_indices().nth(NAME_CHARS) {
        Some((end, _)) => name.get(..end).unwrap_or(name),
        None => name,
    }
}
