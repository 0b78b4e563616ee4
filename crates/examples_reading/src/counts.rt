//! How many lines came to what.
use crate::both::Outcome;
use std::alloc::{AllocError, Global};

/// One more than the greatest number of a cause.
const CAUSES: usize = 14;

/// How many lines came to what.
#[derive(Drop)]
pub struct Counts {
    lines: u64,
    straight: u64,
    skipped: u64,
    entries: u64,
    refused: [u64; CAUSES],
}

impl Counts {
    /// No line yet.
    pub fn new() -> Self {
        Self {
            lines: 0,
            straight: 0,
            skipped: 0,
            entries: 0,
            refused: [0; CAUSES],
        }
    }

    /// Counts a line, which is straight where nothing was bent.
    pub fn add(&mut self, is_straight: bool, outcome: Outcome) {
        self.lines = self.lines.saturating_add(1);
        self.straight = self.straight.saturating_add(u64::from(is_straight));
        match outcome {
            Outcome::Skipped => self.skipped = self.skipped.saturating_add(1),
            Outcome::Entry => self.entries = self.entries.saturating_add(1),
            Outcome::Refused(why) => {
                let cause = usize::from(why.number()).min(CAUSES - 1);
                self.refused[cause] = self.refused[cause].saturating_add(1);
            }
        }
    }

    /// The counts as a line.
    pub fn told(&self, alloc: Global) -> Result<String, AllocError> {
        let mut text = format!(in alloc;
            "{} lines, of which {} are not bent: {} skipped, {} entries, refused by cause",
            self.lines, self.straight, self.skipped, self.entries
        )?;
        self.put_refused(alloc, &mut text)?;
        Ok(text)
    }

    /// Adds each cause and how many lines were refused by it.
    fn put_refused(&self, alloc: Global, text: &mut String) -> Result<(), AllocError> {
        for (cause, count) in self.refused.iter().enumerate() {
            if *count != 0 {
                let part = format!(in alloc; " {cause}: {count}")?;
                text.push_str(&part)?;
            }
        }
        Ok(())
    }
}
