//! Crashes in the migration of an example's store.
ghost use Rattle.bucket_store.specs.Transaction.{IsReady};

use crate::crashed::{PICKS, crash};
use crate::opening::push_opened;
use crate::stores::opened;
use bucket_store::Buckets;
use doubles::{CrashPick, MemDisk};
use middle_nodes::{get, get_old};
use osm_base::Limits;
use std::alloc::{AllocError, Global};
use update_flow::{Opened, open};

/// The node whose record is looked at.
const NODE: u64 = 23;

/// Adds what is found of a store after each crash in its migration: each answer once, in the order in which they come. False: it is
/// not migrated.
pub fn push_crashed(
    alloc: Global,
    disk: &mut MemDisk,
    out: &mut String,
) -> Result<bool, AllocError> {
    let begun = disk.calls();
    if !migrates(alloc, disk) {
        return Ok(false);
    }
    for call in begun..disk.calls() {
        for pick in PICKS {
            add_left(alloc, disk, call, pick, out)?;
        }
    }
    Ok(true)
}

// Whether the store is migrated.
fn migrates(alloc: Global, disk: &mut MemDisk) -> bool {
    let limits = Limits::standard();
    match opened(alloc, disk, &limits) {
        Ok(mut updater) => updater.migrate().is_ok(),
        Err(_) => false,
    }
}

// Puts what is found after a crash behind the other answers, where it is not among them.
fn add_left(
    alloc: Global,
    disk: &MemDisk,
    call: u64,
    pick: CrashPick,
    out: &mut String,
) -> Result<(), AllocError> {
    match crash(alloc, disk, call, pick) {
        Ok(mut left) => add_found(alloc, &mut left, out),
        Err(_) => Err(AllocError),
    }
}

fn add_found(alloc: Global, disk: &mut MemDisk, out: &mut String) -> Result<(), AllocError> {
    let mut answer = String::new(alloc);
    push_found(alloc, disk, &mut answer)?;
    add_answer(out, &answer)
}

// Puts an answer behind the others, where it is not among them.
fn add_answer(answers: &mut String, answer: &str) -> Result<(), AllocError> {
    if answers.as_str().split('|').any(|other| other == answer) {
        return Ok(());
    }
    if !answers.is_empty() {
        answers.push_str("|")?;
    }
    answers.push_str(answer)
}

// What the opening tells of the store, and what the record of the node has in the format of the store.
fn push_found(alloc: Global, disk: &mut MemDisk, out: &mut String) -> Result<(), AllocError> {
    push_opened(alloc, disk, out)?;
    match kept_in(alloc, disk) {
        Some(kept) => write!(out, ", {kept}"),
        None => Ok(()),
    }
}

// What the record of the node has. `None`: no store with buckets opens.
fn kept_in(alloc: Global, disk: &mut MemDisk) -> Option<&'static str> {
    let limits = Limits::standard();
    let Ok(Some(opened)) = open(alloc, disk, &limits) else {
        return None;
    };
    let Opened {
        store,
        changes: _,
        style: _,
        outdated,
    } = opened;
    let mut buckets = Buckets::on(alloc, disk, &limits, store);
    if buckets.root().buckets == 0 {
        return None;
    }
    Some(kept_of(alloc, &mut buckets, outdated))
}

// What the record of the node has in this format.
fn kept_of(alloc: Global, buckets: &mut Buckets<'_, MemDisk>, outdated: bool) -> &'static str
    requires ready { IsReady buckets.old }
{
    if outdated {
        return match get_old(alloc, buckets, NODE) {
            Ok(Some(Some(_))) => "a place",
            Ok(_) => "no place",
            Err(_) => "no record",
        };
    }
    match get(alloc, buckets, NODE) {
        Ok(Some(record)) if record.place.is_some() && record.tags.is_none() => {
            "a place and unknown tags"
        }
        Ok(_) => "another record",
        Err(_) => "no record",
    }
}
