//! The run of an example, over files, a disk and an output in memory.

use crate::sweeping::difference_spoiled;
use doubles::{CrashPick, Fails, MemDisk, MemInputs, MemSink};
use example_runs::{
    Example, InTurn, OPTIONS, Piece, Plan, Put, Turn, Wanted, WatchedFiles, may_read_ahead,
    with_option,
};
use osm_base::{Bytes, FileList, Ids};
use run_promise::{Outcome, fault_line};
use std::alloc::{AllocError, Global};
use std::str;
use std::sync::Wait;
use std::thread::Threads;
use updater::{run, store_of};

/// The most bytes that the disk of an example holds at first.
const MAX_HELD: usize = 1 << 20;

/// What a crash in the last call makes of the ranges that are not synced.
const PICKS: [CrashPick; 2] = [CrashPick::Old, CrashPick::New];

/// What the disk holds when a run has ended, what a crash in its last call leaves, where that was asked, what is other than it is wanted, if
/// anything, and whether it was to be refused for what was spoiled.
#[derive(Drop)]
pub struct Ended {
    pub disk: Vec<u8>,
    pub left: Vec<Vec<u8>>,
    pub other: Option<String>,
    pub refused: bool,
}

/// What is other than the example says, if anything.
pub fn difference<R: Threads + Wait + Sync>(
    rt: &R,
    alloc: Global,
    example: Example,
) -> Result<Option<String>, AllocError> {
    let Example { held, turns } = example;
    let mut disk = held;
    for turn in &turns {
        let ended = ended_of(rt, alloc, turn, &disk)?;
        if ended.other.is_some() {
            return Ok(ended.other);
        }
        let other = difference_ahead(rt, alloc, turn, &disk, &ended.disk)?;
        if other.is_some() {
            return Ok(other);
        }
        let other = difference_spoiled(rt, alloc, turn, &disk)?;
        if other.is_some() {
            return Ok(other);
        }
        disk = ended.disk;
    }
    Ok(None)
}

/// What is other where an append is done again with each option that says how many files are read ahead, if anything: over the bytes
/// that the disk held before, it is to leave those that the append without one has left. A run with such an option is not done again.
fn difference_ahead<R: Threads + Wait + Sync>(
    rt: &R,
    alloc: Global,
    turn: &Turn,
    held: &[u8],
    left: &[u8],
) -> Result<Option<String>, AllocError> {
    if !may_read_ahead(&turn.words) {
        return Ok(None);
    }
    for option in OPTIONS {
        let again = with_option(alloc, turn, option)?;
        let ended = ended_of(rt, alloc, &again, held)?;
        let other = other_end(alloc, option, &ended, left)?;
        if other.is_some() {
            return Ok(other);
        }
    }
    Ok(None)
}

/// What is other where a run with an option ended so, if anything: it is to leave these bytes.
fn other_end(
    alloc: Global,
    option: &str,
    ended: &Ended,
    left: &[u8],
) -> Result<Option<String>, AllocError> {
    match &ended.other {
        Some(text) => told_with(alloc, option, text.as_str()),
        None if ended.disk.as_slice() != left => told_with(alloc, option, "the disk is another"),
        None => Ok(None),
    }
}

/// A text behind the option that a run had.
fn told_with(alloc: Global, option: &str, text: &str) -> Result<Option<String>, AllocError> {
    Ok(Some(format!(in alloc; "with {option} {text}")?))
}

/// How a run ends over a disk that holds these bytes. All that is owned here is let go at one exit.
pub fn ended_of<R: Threads + Wait + Sync>(
    rt: &R,
    alloc: Global,
    turn: &Turn,
    held: &[u8],
) -> Result<Ended, AllocError> {
    let inputs_fail = fails_of(alloc, turn.inputs)?;
    let disk_fails = fails_of(alloc, turn.disk)?;
    let output_fails = fails_of(alloc, turn.output)?;
    let held = changed(Vec::from_slice(alloc, held)?, turn.cut, &turn.puts);
    let gate = InTurn::new(alloc, turn.holds)?;
    let files = MemInputs::new(files_of(alloc, &turn.files)?, inputs_fail);
    let mut inputs = WatchedFiles::new(files, &gate);
    let mut disk = disk_of(alloc, held, disk_fails);
    let mut out = MemSink::new(alloc, output_fails);
    let outcome = outcome_of(
        rt,
        alloc,
        turn.times,
        &turn.words,
        &mut inputs,
        &mut disk,
        &mut out,
        &gate,
    );
    let other = if gate.has_missed() {
        told_missed(alloc)
    } else {
        compared(
            alloc,
            &turn.words,
            &outcome,
            out.taken(),
            disk.bytes(),
            &turn.wanted,
        )
    };
    let left = left_behind(alloc, &disk, turn.crashes);
    kept_end(alloc, disk.bytes(), left, other)
}

/// What a crash in the last call of a disk leaves, by each pick, where it was asked and there were more calls than so many.
fn left_behind(
    alloc: Global,
    disk: &MemDisk,
    calls: Option<u64>,
) -> Result<Vec<Vec<u8>>, AllocError> {
    let mut left = Vec::new(alloc);
    match calls {
        Some(first) if first < disk.calls() => {
            for pick in PICKS {
                left.push(crashed(alloc, disk, pick)?)?;
            }
        }
        _ => {}
    }
    Ok(left)
}

/// What a crash in the last call of a disk leaves.
fn crashed(alloc: Global, disk: &MemDisk, pick: CrashPick) -> Result<Vec<u8>, AllocError> {
    let last = disk.calls();
    if last == 0 {
        return Ok(Vec::new(alloc));
    }
    match disk.after_crash(alloc, last, pick) {
        Ok(left) => Vec::from_slice(alloc, left.bytes()),
        Err(_) => Err(AllocError),
    }
}

/// That something was held in vain.
fn told_missed(alloc: Global) -> Result<Option<String>, AllocError> {
    Ok(Some(String::from_str(alloc, "the gate holds in vain")?))
}

/// The end of a run, with a copy of these bytes.
fn kept_end(
    alloc: Global,
    disk: &[u8],
    left: Result<Vec<Vec<u8>>, AllocError>,
    other: Result<Option<String>, AllocError>,
) -> Result<Ended, AllocError> {
    Ok(Ended {
        disk: Vec::from_slice(alloc, disk)?,
        left: left?,
        other: other?,
        refused: false,
    })
}

/// The bytes cut to so many, with others put on them where they have room.
fn changed(held: Vec<u8>, cut: Option<u64>, puts: &[Put]) -> Vec<u8> {
    let mut bytes = held;
    if let Some(count) = cut {
        bytes.truncate(count as usize);
    }
    for put in puts {
        put_on(&mut bytes, put);
    }
    bytes
}

/// Puts bytes at their place, as many as have room.
fn put_on(bytes: &mut [u8], put: &Put) {
    let Some(rest) = bytes.get_mut(put.at..) else {
        return;
    };
    for (byte, other) in rest.iter_mut().zip(&put.bytes) {
        *byte = *other;
    }
}

/// The outcome of the last of so many runs, one after another.
fn outcome_of<R: Threads + Wait + Sync>(
    rt: &R,
    alloc: Global,
    times: u64,
    words: &[String],
    inputs: &mut WatchedFiles<'_>,
    disk: &mut MemDisk,
    out: &mut MemSink,
    gate: &InTurn,
) -> Outcome {
    for _ in 1..times {
        let _ = run(rt, alloc, words, inputs, disk, out, gate);
    }
    run(rt, alloc, words, inputs, disk, out, gate)
}

/// What is other than it is wanted, if anything.
fn compared(
    alloc: Global,
    words: &[String],
    outcome: &Outcome,
    printed: &[u8],
    disk: &[u8],
    wanted: &Wanted,
) -> Result<Option<String>, AllocError> {
    let fault = outcome_text(alloc, outcome)?;
    if !wanted.is_fault(fault.as_str()) {
        return Ok(Some(format!(in alloc; "the fault is {fault}")?));
    }
    if outcome.status as u64 != wanted.status {
        return Ok(Some(format!(in alloc; "the status is {}", outcome.status)?));
    }
    let store = store_of(words).unwrap_or("");
    if store != wanted.store.as_str() {
        return Ok(Some(format!(in alloc; "the store is {store}")?));
    }
    if !wanted.is_printed(printed) {
        return Ok(Some(match str::from_utf8(printed) {
            Ok(text) => format!(in alloc; "it prints {text:?}")?,
            Err(_) => format!(in alloc; "it prints {printed:?}")?,
        }));
    }
    if wanted.any_disk {
        return Ok(None);
    }
    if disk.len() as u64 != wanted.disk_bytes {
        return Ok(Some(format!(in alloc; "the disk has {} bytes", disk.len())?));
    }
    for piece in &wanted.pieces {
        if !stands(disk, piece) {
            return Ok(Some(format!(in alloc; "the disk has other bytes at {}", piece.at)?));
        }
    }
    Ok(None)
}

/// Whether the disk holds these bytes at their place.
fn stands(disk: &[u8], piece: &Piece) -> bool {
    match disk.get(piece.at..) {
        Some(rest) => rest.starts_with(&piece.bytes),
        None => false,
    }
}

/// The files, by the numbers of their words.
fn files_of(alloc: Global, files: &[Vec<u8>]) -> Result<FileList, AllocError> {
    let mut list = Vec::new(alloc);
    for file in files {
        list.push(Bytes::from_vec(Vec::from_slice(alloc, file)?))?;
    }
    Ok(FileList::from_vec(list))
}

/// The calls that fail by a plan.
fn fails_of(alloc: Global, plan: Plan) -> Result<Fails, AllocError> {
    let mut at = Vec::new(alloc);
    if plan.at > 0 {
        at.push(plan.at)?;
    }
    Ok(Fails::new(Ids::from_vec(at), plan.from))
}

/// A disk that holds these bytes, where they are not too many.
fn disk_of(alloc: Global, held: Vec<u8>, fails: Fails) -> MemDisk {
    let bytes = if held.len() <= MAX_HELD {
        held
    } else {
        Vec::new(alloc)
    };
    MemDisk::new(alloc, Bytes::from_vec(bytes), fails)
}

/// The line of the fault, or nothing.
fn outcome_text(alloc: Global, outcome: &Outcome) -> Result<String, AllocError> {
    match &outcome.fault {
        None => Ok(String::new(alloc)),
        Some(fault) => match fault_line(alloc, fault) {
            Ok(line) => String::from_str(alloc, line.as_str()),
            Err(_) => String::from_str(alloc, "no line"),
        },
    }
}
