//! A crash in each call of a disk whose store follows another one.

use crate::crashed::compare;
use crate::end::{End, Part};
use crate::stores::{files_of, formatted};
use crate::version::version_of;
use delta_feed::FeedReader;
use doubles::{Fails, MemDisk, MemInputs};
use osm_base::Limits;
use std::alloc::Global;
use update_flow::{FlowFault, Follower, open_follower};

/// Crashes in each call by which an open store that has taken so many blocks of a feed takes the next one: the store is that before the
/// block or that after it, which are added then, and that after it from the moment on at which the block is taken.
pub fn follows_of(alloc: Global, taken: u64, feed: &str, out: &mut String) -> Result<(), End> {
    let mut fewer = formatted(alloc)?;
    let mut more = formatted(alloc)?;
    block_on(alloc, &mut fewer, &mut more, taken, feed, out)
}

fn block_on(
    alloc: Global,
    fewer: &mut MemDisk,
    more: &mut MemDisk,
    taken: u64,
    feed: &str,
    out: &mut String,
) -> Result<(), End> {
    if !follows(alloc, fewer, taken, feed)?
        || !follows(alloc, more, taken.saturating_add(1), feed)?
    {
        return Err(End::Differs(Part::Block, taken));
    }
    let calls = [fewer.calls(), more.calls()];
    let before = version_of(alloc, fewer)?;
    let after = version_of(alloc, more)?;
    write!(out, "{before:?} or {after:?}")?;
    compare(alloc, more, calls, [&before, &after], false)
}

// Whether the store follows another one by so many blocks of a feed.
fn follows(alloc: Global, disk: &mut MemDisk, blocks: u64, feed: &str) -> Result<bool, FlowFault> {
    let limits = Limits::standard();
    let Some(base) = open_follower(alloc, disk, &limits)? else {
        return Ok(false);
    };
    let mut inputs = MemInputs::new(files_of(alloc, feed)?, Fails::never(alloc));
    let mut store = Follower::over(alloc, disk, base, &limits);
    Ok(takes(alloc, &mut store, blocks, &mut inputs))
}

// Whether the store takes so many blocks.
fn takes(
    alloc: Global,
    store: &mut Follower<'_, MemDisk>,
    blocks: u64,
    inputs: &mut MemInputs,
) -> bool {
    let mut reader = FeedReader::new(alloc, 0, &Limits::standard());
    for _ in 0..blocks {
        let Ok(Some(block)) = reader.next(alloc, inputs, store.style()) else {
            return false;
        };
        if store.apply(block).is_err() {
            return false;
        }
    }
    true
}
