//! Runs that are spoiled again and again, and the check of what a crash leaves behind them.

use crate::running::{Ended, ended_of};
use example_runs::{Sweep, Turn};
use std::alloc::{AllocError, Global};
use std::sync::Wait;
use std::thread::Threads;

/// What is other where a run over a disk that holds these bytes is spoiled as its sweeps say, if anything.
pub fn difference_spoiled<R: Threads + Wait + Sync>(
    rt: &R,
    alloc: Global,
    turn: &Turn,
    held: &[u8],
) -> Result<Option<String>, AllocError> {
    for sweep in &turn.sweeps {
        let other = other_in(rt, alloc, turn, held, *sweep)?;
        if other.is_some() {
            return Ok(other);
        }
    }
    Ok(None)
}

/// What is other in a sweep, if anything. Calls are spoiled up to the first place at which the run is not refused.
fn other_in<R: Threads + Wait + Sync>(
    rt: &R,
    alloc: Global,
    turn: &Turn,
    held: &[u8],
    sweep: Sweep,
) -> Result<Option<String>, AllocError> {
    let mut refused = 0u64;
    for place in 0..sweep.places(held.len()) {
        let ended = end_at(rt, alloc, turn, held, sweep, place)?;
        if let Some(text) = &ended.other {
            return Ok(Some(format!(in alloc; "spoiled at place {place}: {text}")?));
        }
        if ended.refused {
            refused = refused.saturating_add(1);
        } else if sweep.is_of_calls() {
            break;
        }
    }
    if refused == sweep.refused {
        return Ok(None);
    }
    Ok(Some(format!(in alloc; "{refused} are refused where {} were to be", sweep.refused)?))
}

/// How a run ends that is spoiled at a place: as it is wanted, or refused for it. Behind failing calls a check finds a sound store.
fn end_at<R: Threads + Wait + Sync>(
    rt: &R,
    alloc: Global,
    turn: &Turn,
    held: &[u8],
    sweep: Sweep,
    place: usize,
) -> Result<Ended, AllocError> {
    let mut again = sweep.spoiled(alloc, turn, held, place)?;
    let fault = sweep.fault(alloc, place)?;
    let mut ended = refused_or_not(rt, alloc, &mut again, held, sweep.status(), fault.as_str())?;
    if ended.other.is_none() {
        ended.other = other_left(rt, alloc, turn, &ended.left)?;
    }
    Ok(ended)
}

/// How a run ends that may be refused with this status and this line. It is done once more where it does not end as it is wanted.
fn refused_or_not<R: Threads + Wait + Sync>(
    rt: &R,
    alloc: Global,
    turn: &mut Turn,
    held: &[u8],
    status: u64,
    fault: &str,
) -> Result<Ended, AllocError> {
    let ended = ended_of(rt, alloc, turn, held)?;
    if ended.other.is_none() {
        return Ok(ended);
    }
    turn.wanted.refuse(alloc, status, fault)?;
    let mut ended = ended_of(rt, alloc, turn, held)?;
    ended.refused = true;
    Ok(ended)
}

/// What is other than a check finds sound where a disk holds one of these, if anything. Of a store to be migrated it may tell that it is old,
/// and of one that follows another that it does.
fn other_left<R: Threads + Wait + Sync>(
    rt: &R,
    alloc: Global,
    turn: &Turn,
    left: &[Vec<u8>],
) -> Result<Option<String>, AllocError> {
    for bytes in left {
        let mut check = turn.checking(alloc)?;
        let ended = match turn.unjudged() {
            Some(fault) => refused_or_not(rt, alloc, &mut check, bytes, 6, fault)?,
            None => ended_of(rt, alloc, &check, bytes)?,
        };
        if let Some(text) = &ended.other {
            return Ok(Some(format!(in alloc; "the check behind it: {text}")?));
        }
    }
    Ok(None)
}
