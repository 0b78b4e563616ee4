//! An import and a change under limits.

use crate::end::{End, push_end};
use crate::setting::Setting;
use crate::stores::{change, formatted, import};
use doubles::MemDisk;
use osm_base::Limits;
use std::alloc::{AllocError, Global};
use std::thread::Threads;
use tile_cover::Bounds;

/// Adds what an import and then a change answer under these limits.
pub fn answers_under<R: Threads + Sync>(
    rt: &R,
    alloc: Global,
    limits: &Limits,
    bounds: &Bounds,
    setting: Setting<'_>,
    texts: [&str; 2],
    out: &mut String,
) -> Result<(), End> {
    let mut disk = formatted(alloc)?;
    Ok(both(rt, alloc, &mut disk, limits, bounds, setting, texts, out)?)
}

fn both<R: Threads + Sync>(
    rt: &R,
    alloc: Global,
    disk: &mut MemDisk,
    limits: &Limits,
    bounds: &Bounds,
    setting: Setting<'_>,
    texts: [&str; 2],
    out: &mut String,
) -> Result<(), AllocError> {
    let [first, second] = texts;
    push_answer(out, import(rt, alloc, disk, limits, setting, first))?;
    out.push_str(", ")?;
    push_answer(out, change(rt, alloc, disk, limits, bounds, second))
}

// Adds the text of what a call answers.
fn push_answer(out: &mut String, answer: Result<(), End>) -> Result<(), AllocError> {
    match answer {
        Ok(()) => out.push_str("done"),
        Err(end) => push_end(out, end),
    }
}
