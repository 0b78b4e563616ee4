//! How a run is spoiled again and again: each of its calls made to fail in turn, or each page of its disk overwritten.

use crate::turn::{Plan, Put, Turn};
use example_table::{named_row, number_in};
use std::alloc::{AllocError, Global};

/// More calls than any run of the tables makes.
const MAX_CALLS: usize = 100_000;

/// The bytes of a page.
const PAGE: usize = 4_096;

/// What is spoiled: the calls of the files, of the disk or of the output from one on, or a page, filled with a byte or with what the page
/// behind it holds.
#[derive(Clone, Copy)]
enum Part {
    Inputs,
    Disk,
    Output,
    Filled(u8),
    Behind,
}

/// What of a run is spoiled, one call or one page after another, and at how many of them the run is refused.
#[derive(Clone, Copy)]
pub struct Sweep {
    part: Part,
    pub refused: u64,
}

impl Sweep {
    /// The one of a row `each-call PART COUNT` or `each-page PART COUNT`.
    pub fn of(word: &str, text: &str) -> Option<Sweep> {
        let (name, count) = named_row(text)?;
        let part = if word == "each-call" {
            caller_of(name)?
        } else {
            filling_of(name)?
        };
        Some(Sweep {
            part,
            refused: number_in(count)?,
        })
    }

    /// Whether calls are spoiled, and no pages.
    pub fn is_of_calls(self) -> bool {
        matches!(self.part, Part::Inputs | Part::Disk | Part::Output)
    }

    /// How many places there may be to spoil: calls, or pages of a disk with so many bytes.
    pub fn places(self, bytes: usize) -> usize {
        if self.is_of_calls() {
            MAX_CALLS
        } else {
            bytes / PAGE
        }
    }

    /// The run over a disk that holds these bytes, spoiled at a place, of which the first is 0. Behind failing calls it is asked what a crash
    /// leaves.
    pub fn spoiled(
        self,
        alloc: Global,
        turn: &Turn,
        held: &[u8],
        place: usize,
    ) -> Result<Turn, AllocError> {
        let mut again = turn.copied(alloc)?;
        if self.is_of_calls() {
            again.crashes = Some(turn.formats);
        }
        let failing = Plan {
            at: 0,
            from: (place as u64).saturating_add(1),
        };
        match self.part {
            Part::Inputs => again.inputs = failing,
            Part::Disk => again.disk = failing,
            Part::Output => again.output = failing,
            Part::Filled(byte) => again.puts.push(filled(alloc, place, byte)?)?,
            Part::Behind => again.puts.push(moved(alloc, place, held)?)?,
        }
        Ok(again)
    }

    /// The status of a run that is refused for what was spoiled.
    pub fn status(self) -> u64 {
        match self.part {
            Part::Inputs => 7,
            Part::Output => 8,
            Part::Disk => 9,
            Part::Filled(_) | Part::Behind => 6,
        }
    }

    /// The line of its fault. It ends in a blank where the number of a file stands behind, whichever it is.
    pub fn fault(self, alloc: Global, place: usize) -> Result<String, AllocError> {
        match self.part {
            Part::Inputs => String::from_str(alloc, "read fault file "),
            Part::Output => String::from_str(alloc, "write fault"),
            Part::Disk => String::from_str(alloc, "disk fault"),
            Part::Filled(_) | Part::Behind => page_fault(alloc, place),
        }
    }
}

/// Whose calls are to fail.
fn caller_of(name: &str) -> Option<Part> {
    match name {
        "inputs" => Some(Part::Inputs),
        "disk" => Some(Part::Disk),
        "output" => Some(Part::Output),
        _ => None,
    }
}

/// With what each page is to be filled.
fn filling_of(name: &str) -> Option<Part> {
    match name {
        "ff" => Some(Part::Filled(0xff)),
        "00" => Some(Part::Filled(0)),
        "neighbour" => Some(Part::Behind),
        _ => None,
    }
}

/// The line of a store whose page with this number is bad.
fn page_fault(alloc: Global, page: usize) -> Result<String, AllocError> {
    if page == 0 {
        String::from_str(alloc, "not formatted")
    } else {
        format!(in alloc; "bad store page {page}")
    }
}

/// A page filled with a byte.
fn filled(alloc: Global, page: usize, byte: u8) -> Result<Put, AllocError> {
    Ok(Put {
        at: page.saturating_mul(PAGE),
        bytes: vec![in alloc; byte; PAGE]?,
    })
}

/// A page filled with the bytes of the page behind it, the last one with those of the first.
fn moved(alloc: Global, page: usize, held: &[u8]) -> Result<Put, AllocError> {
    let at = page.saturating_mul(PAGE);
    let rest = match held.get(at.saturating_add(PAGE)..) {
        Some(rest) if !rest.is_empty() => rest,
        _ => held,
    };
    Ok(Put {
        at,
        bytes: Vec::from_slice(alloc, rest.get(..PAGE).unwrap_or(rest))?,
    })
}
