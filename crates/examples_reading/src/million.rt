//! A million lines that are made and bent up to three times, which both readers have to read the same.
//!
//! A byte is changed, dropped, doubled or put in, the end is cut off, and fields or items of a list are dropped, doubled or
//! moved.
use crate::bent::bent;
use crate::both::outcome_of;
use crate::counts::Counts;
use crate::dice::Dice;
use crate::made::made_line;
use crate::tell;
use std::alloc::{AllocError, Global};
use std::io;

/// How many lines are made.
const LINES: usize = 1_000_000;

/// What the lines follow from.
const SEED: u64 = 19;

/// Whether both readers agree on all lines that are made.
pub fn are_made_lines_fine<R: Print + Eprint>(rt: &R, alloc: Global) -> io::Result<bool> {
    let mut dice = Dice::new(SEED);
    let mut counts = Counts::new();
    for _ in 0..LINES {
        if !is_next_line_fine(rt, alloc, &mut dice, &mut counts)? {
            return Ok(false);
        }
    }
    println!(rt; "{}", counts.told(alloc)?)?;
    Ok(true)
}

/// Whether both readers agree on the next line that is made, and counts it.
fn is_next_line_fine<R: Eprint>(
    rt: &R,
    alloc: Global,
    dice: &mut Dice,
    counts: &mut Counts,
) -> io::Result<bool> {
    let times = dice.below(4);
    let line = line_bent(alloc, dice, times)?;
    match outcome_of(alloc, &line) {
        Some(outcome) => {
            counts.add(times == 0, outcome);
            Ok(true)
        }
        None => {
            tell(rt, "made", "line", "of which the readers differ", &line)?;
            Ok(false)
        }
    }
}

/// A line that is bent so many times.
fn line_bent(alloc: Global, dice: &mut Dice, times: usize) -> Result<Vec<u8>, AllocError> {
    let mut line = made_line(alloc, dice)?;
    for _ in 0..times {
        line = bent(alloc, dice, &line)?;
    }
    Ok(line)
}
