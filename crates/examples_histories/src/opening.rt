//! The opening of a store once deeds are done to its disk, and calls on it.

use crate::calling::push_called;
use crate::deeds::is_done;
use crate::migrated::push_crashed;
use crate::stores::opened;
use doubles::{Fails, MemDisk};
use osm_base::{Bytes, Limits};
use std::alloc::{AllocError, Global};
use update_flow::Updater;

/// Adds what is answered once these deeds are done to an empty disk. False: one of them is no deed, or there is no such kind.
pub fn push_after(
    alloc: Global,
    kind: &str,
    deeds: &str,
    out: &mut String,
) -> Result<bool, AllocError> {
    let mut disk = MemDisk::new(alloc, Bytes::new(alloc), Fails::never(alloc));
    push_on(alloc, &mut disk, kind, deeds, out)
}

fn push_on(
    alloc: Global,
    disk: &mut MemDisk,
    kind: &str,
    deeds: &str,
    out: &mut String,
) -> Result<bool, AllocError> {
    for deed in deeds.split(';') {
        if !is_done(alloc, disk, deed)? {
            return Ok(false);
        }
    }
    match kind {
        "opened" => {
            push_opened(alloc, disk, out)?;
            Ok(true)
        }
        "crashed" => push_crashed(alloc, disk, out),
        _ => push_called(alloc, disk, kind, out),
    }
}

/// Adds what the opening tells of the store.
pub fn push_opened(alloc: Global, disk: &mut MemDisk, out: &mut String) -> Result<(), AllocError> {
    let limits = Limits::standard();
    match opened(alloc, disk, &limits) {
        Ok(updater) => push_told(&updater, out),
        Err(fault) => write!(out, "{fault}"),
    }
}

fn push_told(updater: &Updater<'_, MemDisk>, out: &mut String) -> Result<(), AllocError> {
    let Some(style) = updater.style() else {
        return out.push_str("not imported");
    };
    let kind = if updater.old() { "old, " } else { "" };
    let changes = updater.changes();
    let tables = style.tables.as_slice().len();
    write!(out, "{kind}changes {changes} tables {tables}")
}
