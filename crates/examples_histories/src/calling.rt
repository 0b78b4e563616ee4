//! Calls on the open store of an example's disk.

use crate::opening::push_opened;
use crate::stores::opened;
use doubles::MemDisk;
use osm_base::Limits;
use std::alloc::{AllocError, Global};
use update_flow::{FlowFault, Updater};

/// Adds what a call on the store answers, and what its opening answers then. False: it is no call.
pub fn push_called(
    alloc: Global,
    disk: &mut MemDisk,
    call: &str,
    out: &mut String,
) -> Result<bool, AllocError> {
    match done_on(alloc, disk, call) {
        None => return Ok(false),
        Some(Ok(())) => out.push_str("done")?,
        Some(Err(fault)) => write!(out, "{fault}")?,
    }
    out.push_str("; ")?;
    push_opened(alloc, disk, out)?;
    Ok(true)
}

// Whether the call is done on the store of this disk.
fn done_on(alloc: Global, disk: &mut MemDisk, call: &str) -> Option<Result<(), FlowFault>> {
    let limits = Limits::standard();
    match opened(alloc, disk, &limits) {
        Ok(mut updater) => done_by(&mut updater, call),
        Err(fault) => Some(Err(fault)),
    }
}

// Whether the call is done.
fn done_by(updater: &mut Updater<'_, MemDisk>, call: &str) -> Option<Result<(), FlowFault>> {
    match call {
        "migrate" => Some(updater.migrate()),
        "clear_due" => Some(updater.clear_due()),
        "due" => Some(updater.due().map(|_| ())),
        "load_tables" => Some(updater.load_tables().map(|_| ())),
        "load_sorted" => Some(updater.load_sorted().map(|_| ())),
        "load_table" => Some(updater.load_table(0).map(|_| ())),
        _ => None,
    }
}
