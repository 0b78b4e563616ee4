//! A crash in each call of a disk that a step of its store makes, and in each of the opening that follows.

use crate::end::{End, Part};
use crate::setting::{Rules, STYLE, Setting};
use crate::stores::{change, clear, formatted, import, opened};
use crate::version::version_of;
use doubles::{CrashPick, MemDisk};
use osm_base::{Limits, OutOfMemory};
use std::alloc::Global;
use std::thread::Threads;
use update_flow::FlowFault;

/// What a crash may make of the ranges that are not synced.
pub const PICKS: [CrashPick; 4] = [
    CrashPick::Old,
    CrashPick::New,
    CrashPick::Half,
    CrashPick::Garbage(1),
];

/// Crashes in each call of a deed that follows an import and a change, and then in the opening: the store is that before the deed
/// or after it, and after it from the deed's end on, which is added then. The deed is a second change, or where its text is empty, that no
/// tile is due.
pub fn crashes_of<R: Threads + Sync>(
    rt: &R,
    alloc: Global,
    rules: &Rules,
    buckets: u64,
    texts: [&str; 3],
    out: &mut String,
) -> Result<(), End> {
    let mut disk = formatted(alloc)?;
    deed_on(rt, alloc, &mut disk, rules, buckets, texts)?;
    Ok(out.push_str("before or after")?)
}

// An import, a change, and the deed with its cuts.
fn deed_on<R: Threads + Sync>(
    rt: &R,
    alloc: Global,
    disk: &mut MemDisk,
    rules: &Rules,
    buckets: u64,
    texts: [&str; 3],
) -> Result<(), End> {
    let [first, change, deed] = texts;
    let setting = Setting {
        style: STYLE,
        buckets,
        workers: 1,
    };
    import(rt, alloc, disk, &Limits::standard(), setting, first)?;
    does(rt, alloc, disk, rules, change)?;
    let before = version_of(alloc, disk)?;
    let begun = disk.calls();
    does(rt, alloc, disk, rules, deed)?;
    let calls = [begun, disk.calls()];
    let after = version_of(alloc, disk)?;
    compare(alloc, disk, calls, [&before, &after], true)
}

fn does<R: Threads + Sync>(
    rt: &R,
    alloc: Global,
    disk: &mut MemDisk,
    rules: &Rules,
    text: &str,
) -> Result<(), End> {
    if text.is_empty() {
        return Ok(clear(alloc, disk)?);
    }
    let limits = Limits::standard();
    change(rt, alloc, disk, &limits, &rules.bounds, text)
}

/// Cuts in each call from a number on leave one of two versions, which differ, and from another number on the second.
pub fn compare(
    alloc: Global,
    disk: &MemDisk,
    calls: [u64; 2],
    versions: [&str; 2],
    twice: bool,
) -> Result<(), End> {
    let [begun, done] = calls;
    let [before, after] = versions;
    if before == after {
        return Err(End::Differs(Part::Deed, begun));
    }
    cut_in_each(alloc, disk, calls, versions, twice)?;
    let calls = [done, disk.calls()];
    cut_in_each(alloc, disk, calls, [after, after], twice)
}

// A cut of a disk in each of these calls leaves one of two versions; where asked, also behind a second one in the opening.
fn cut_in_each(
    alloc: Global,
    disk: &MemDisk,
    calls: [u64; 2],
    versions: [&str; 2],
    twice: bool,
) -> Result<(), End> {
    let [begun, end] = calls;
    for call in begun..end {
        for pick in PICKS {
            let kept = if twice {
                once_more(alloc, disk, call, pick, versions)?
            } else {
                is_left(alloc, disk, call, pick, versions)?
            };
            if !kept {
                return Err(End::Differs(Part::Store, call));
            }
        }
    }
    Ok(())
}

// Whether the opening of what a cut leaves, and a cut in each of its calls, leave one of two versions.
fn once_more(
    alloc: Global,
    disk: &MemDisk,
    call: u64,
    pick: CrashPick,
    versions: [&str; 2],
) -> Result<bool, FlowFault> {
    let mut left = crash(alloc, disk, call, pick)?;
    is_kept_by_opening(alloc, &mut left, versions)
}

fn is_kept_by_opening(
    alloc: Global,
    disk: &mut MemDisk,
    versions: [&str; 2],
) -> Result<bool, FlowFault> {
    is_opened(alloc, disk)?;
    // An opening asks for the length once, and reads: one that makes no other call leaves what it found, wherever it is cut.
    let wrote = disk.calls().saturating_sub(disk.reads()) > 1;
    let calls = if wrote { disk.calls() } else { 0 };
    for call in 0..calls {
        for pick in PICKS {
            if !is_left(alloc, disk, call, pick, versions)? {
                return Ok(false);
            }
        }
    }
    is_one_of(alloc, disk, versions)
}

fn is_opened(alloc: Global, disk: &mut MemDisk) -> Result<(), FlowFault> {
    let _updater = opened(alloc, disk, &Limits::standard())?;
    Ok(())
}

// Whether a cut leaves one of two versions.
fn is_left(
    alloc: Global,
    disk: &MemDisk,
    call: u64,
    pick: CrashPick,
    versions: [&str; 2],
) -> Result<bool, FlowFault> {
    let mut left = crash(alloc, disk, call, pick)?;
    is_one_of(alloc, &mut left, versions)
}

fn is_one_of(alloc: Global, disk: &mut MemDisk, versions: [&str; 2]) -> Result<bool, FlowFault> {
    let found = version_of(alloc, disk)?;
    let [one, other] = versions;
    Ok(found.as_str() == one || found.as_str() == other)
}

/// What a crash leaves in the call behind so many.
pub fn crash(
    alloc: Global,
    disk: &MemDisk,
    before: u64,
    pick: CrashPick,
) -> Result<MemDisk, OutOfMemory> {
    if before >= disk.calls() {
        return Err(OutOfMemory);
    }
    disk.after_crash(alloc, before + 1, pick)
}
