//! A store follows another one: it takes a block, in one commit, within its buckets.
ghost use Rattle.std.specs.Prelude.{◌≡◌, ◌≤◌, ◌<◌, ◌+◌, Some, OnOk};
ghost use Rattle.std.specs.Result.{result_err};
ghost use Rattle.osm_base.specs.declared.bounds.limits.LimitNumbers.{LimitNumbers};
ghost use Rattle.bucket_store.specs.Buckets.{bucket_count};
ghost use Rattle.bucket_store.specs.Image.{Has, Image};
ghost use Rattle.bucket_store.specs.Transaction.{chains_of};
ghost use Rattle.delta_feed.specs.Sound.{IsDelta, IsFull};
ghost use Rattle.delta_feed.specs.declared.block.Block.TheVariants as blocks;
ghost use Rattle.update_flow.specs.Stands.{IsBlank, IsFollowing};
ghost use Rattle.update_flow.specs.State.{Follow, Following, following, formatted};
ghost use Rattle.update_flow.specs.Taking.{HasRoom, styled, versioned};
ghost use Rattle.update_flow.specs.Turning.{CommitsWith, EndsIn, TurnsIn, limit_in};
ghost use Rattle.update_flow.specs.Within.{GoesOn, IsGoing, IsSound, StoresText};
ghost use Rattle.update_flow.specs.declared.fields.TheConstants.{STYLE_TEXT};

use crate::fault::store_fault;
use crate::finishing::finish;
use crate::taking::take_rows;
use crate::{FOLLOWING, FlowFault, IMPORTED_FORMAT, STYLE_TEXT};
use bucket_store::Buckets;
use chain_store::Root;
use osm_base::{Bytes, Delta, RowChanges};
use outside::Disk;
use page_journal::StoreFault;
use row_store::clear;
use std::alloc::Global;
use style_read::Style;

/// How many buckets each map of a follower's store gets.
pub const FOLLOWER_BUCKETS: u64 = 1024;

/// Whole tables of a version take the place of those that the store of a follower has, in one commit, with their style and its bytes. A
/// store that was only made becomes one.
pub(crate) fn take_whole<D: Disk>(
    alloc: Global,
    buckets: &mut Buckets<'_, D>,
    version: u64,
    style_bytes: Bytes,
    style: &Style,
    rows: RowChanges,
) -> Result<(), FlowFault>
    requires ready { IsGoing buckets.old }
    requires block { IsFull version style_bytes style.now rows }
    ensures begun { (limits : LimitNumbers) (rest : Image) → limit_in buckets.old ≡ limits.pages → Has rest rest buckets.old → IsBlank rest
        → TurnsIn limits formatted (Follow (blocks.Full version style_bytes style.now rows)) (result_err result) buckets.old buckets.new }
    ensures turns { (limits : LimitNumbers) (held : Following) (rest : Image) → limit_in buckets.old ≡ limits.pages → Has rest rest buckets.old
        → IsFollowing held rest → held.version < version
        → TurnsIn limits (following held) (Follow (blocks.Full version style_bytes style.now rows)) (result_err result) buckets.old buckets.new }
    ensures ends { EndsIn (Some (Follow (blocks.Full version style_bytes style.now rows))) (result_err result) buckets.old buckets.new }
{
    match make_room(buckets) {
        Ok(()) => match take_rows(alloc, buckets, style, rows) {
            Ok(()) => finish_whole(buckets, version, style_bytes),
            Err(fault) => Err(fault),
        },
        Err(fault) => Err(fault),
    }
}

/// What the next change made of the tables is done to those of a follower's store with this style, in one commit.
pub(crate) fn take_delta<D: Disk>(
    alloc: Global,
    buckets: &mut Buckets<'_, D>,
    style: &Style,
    delta: Delta,
) -> Result<(), FlowFault>
    requires ready { IsGoing buckets.old }
    requires block { IsDelta style.now.tables delta.version delta.changes }
    ensures turns { (limits : LimitNumbers) (held : Following) (rest : Image) → limit_in buckets.old ≡ limits.pages → Has rest rest buckets.old
        → IsFollowing held rest → held.style ≡ style.now → delta.version ≡ held.version + 1
        → TurnsIn limits (following held) (Follow (blocks.Delta delta)) (result_err result) buckets.old buckets.new }
    ensures ends { EndsIn (Some (Follow (blocks.Delta delta))) (result_err result) buckets.old buckets.new }
{
    let Delta { version, changes } = delta;
    if buckets.root().buckets == 0 {
        return Err(FlowFault::Store(StoreFault::BadStore { page: 1 }));
    }
    match take_rows(alloc, buckets, style, changes) {
        Ok(()) => finish_delta(buckets, version),
        Err(fault) => Err(fault),
    }
}

/// A store without buckets gets them, and of any other all rows are taken out.
fn make_room<D: Disk>(buckets: &mut Buckets<'_, D>) -> Result<(), FlowFault>
    requires ready { IsGoing buckets.old }
    ensures room { OnOk result ((rest now : Image) → Has rest now buckets.old → (later : Image) × Has rest later buckets.new × HasRoom now later) }
    ensures some { OnOk result (1 ≤ bucket_count (chains_of buckets.new)) }
    ensures sound { (rest now : Image) → Has rest now buckets.old → IsSound (result_err result) }
    ensures goes { GoesOn buckets.old buckets.new result }
{
    if buckets.root().buckets == 0 {
        buckets.set_buckets(FOLLOWER_BUCKETS);
        return Ok(());
    }
    match clear(buckets) {
        Ok(()) => Ok(()),
        Err(fault) => Err(store_fault(fault)),
    }
}

/// Commits what the transaction has changed as a follower's store of a version, with these bytes of its style.
fn finish_whole<D: Disk>(
    buckets: &mut Buckets<'_, D>,
    version: u64,
    style_bytes: Bytes,
) -> Result<(), FlowFault>
    requires ready { IsGoing buckets.old }
    ensures commits { CommitsWith (styled version style_bytes) (result_err result) buckets.old buckets.new }
{
    match keep_style(buckets, style_bytes) {
        Ok(()) => {
            let root = buckets.root();
            buckets.set_root(Root {
                format: IMPORTED_FORMAT,
                state: FOLLOWING,
                changes: version,
                buckets: root.buckets,
            });
            finish(buckets)
        }
        Err(fault) => Err(fault),
    }
}

/// These are the bytes of the style.
fn keep_style<D: Disk>(buckets: &mut Buckets<'_, D>, style_bytes: Bytes) -> Result<(), FlowFault>
    requires ready { IsGoing buckets.old }
    ensures stores { StoresText STYLE_TEXT style_bytes buckets.old buckets.new result }
{
    match buckets.store(STYLE_TEXT, style_bytes) {
        Ok(()) => Ok(()),
        Err(fault) => Err(store_fault(fault)),
    }
}

/// Commits what the transaction has changed as a store of this version.
fn finish_delta<D: Disk>(buckets: &mut Buckets<'_, D>, version: u64) -> Result<(), FlowFault>
    requires ready { IsGoing buckets.old }
    ensures commits { CommitsWith (versioned version) (result_err result) buckets.old buckets.new }
{
    let root = buckets.root();
    buckets.set_root(Root {
        changes: version,
        ..root
    });
    finish(buckets)
}
