//! How much of a store a change reads.

use crate::end::End;
use crate::setting::{STYLE, Setting};
use crate::stores::{change, formatted, import};
use doubles::MemDisk;
use osm_base::Limits;
use std::alloc::{AllocError, Global};
use std::thread::Threads;
use tile_cover::Bounds;

/// Adds how many reads of a page the opening and a change of one place make, and how many pages the store has: of so many nodes, with a
/// way between each two.
pub fn reads_of<R: Threads + Sync>(
    rt: &R,
    alloc: Global,
    bounds: &Bounds,
    buckets: u64,
    nodes: u64,
    out: &mut String,
) -> Result<(), End> {
    let mut disk = formatted(alloc)?;
    import_pairs(rt, alloc, &mut disk, buckets, nodes)?;
    reads_of_a_change(rt, alloc, &mut disk, bounds, out)
}

fn import_pairs<R: Threads + Sync>(
    rt: &R,
    alloc: Global,
    disk: &mut MemDisk,
    buckets: u64,
    nodes: u64,
) -> Result<(), End> {
    let setting = Setting {
        style: STYLE,
        buckets,
        workers: 1,
    };
    let mut text = String::new(alloc);
    add_pairs(&mut text, nodes)?;
    import(rt, alloc, disk, &Limits::standard(), setting, &text)
}

fn reads_of_a_change<R: Threads + Sync>(
    rt: &R,
    alloc: Global,
    disk: &mut MemDisk,
    bounds: &Bounds,
    out: &mut String,
) -> Result<(), End> {
    let pages = home_pages(disk.bytes());
    let before = disk.reads();
    let limits = Limits::standard();
    change(rt, alloc, disk, &limits, bounds, "n1 x2 y2\n")?;
    let reads = disk.reads().saturating_sub(before);
    Ok(write!(out, "{reads} of {pages}")?)
}

/// So many nodes, and a way between each two.
fn add_pairs(text: &mut String, nodes: u64) -> Result<(), AllocError> {
    for before in 0..nodes {
        write!(text, "n{} x1 y1\n", before + 1)?;
    }
    for pair in 1..(nodes / 2).saturating_add(1) {
        let last = pair.saturating_mul(2);
        write!(text, "w{pair} Nn{},n{last}\n", last.saturating_sub(1))?;
    }
    Ok(())
}

/// How many pages a store has, as its root page tells.
fn home_pages(bytes: &[u8]) -> u64 {
    let Some(front) = bytes.get(4096..4104) else {
        return 0;
    };
    let mut pages = 0;
    for &byte in front.iter().rev() {
        pages = (pages << 8) | u64::from(byte);
    }
    pages
}
