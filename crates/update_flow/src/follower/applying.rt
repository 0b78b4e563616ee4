//! An open store that follows another one takes a block.
ghost use Rattle.std.specs.Prelude.{◌≡◌, ◌↔◌, ℕ, Some, IfSome, IsErrOf};
ghost use Rattle.delta_feed.specs.Sound.{IsDelta, IsFull, IsSound as IsSoundBlock};
ghost use Rattle.delta_feed.specs.Stage.{tables_of};
ghost use Rattle.delta_feed.specs.declared.block.Block.{Block};
ghost use Rattle.delta_feed.specs.declared.block.Block.TheVariants as blocks;
ghost use Rattle.update_flow.specs.Follower.{IsByNumbers, IsGap, IsNext, IsUnbegun, flow_of, is_later};
ghost use Rattle.update_flow.specs.Handle.{style_of};
ghost use Rattle.update_flow.specs.State.{Follow};
ghost use Rattle.update_flow.specs.declared.fault.FollowFault.TheVariants.{Gap, NotImported};

use super::Follower;
use crate::over_disk::{delta_on, whole_on};
use crate::{FlowFault, FollowFault};
use delta_feed::Block;
use osm_base::{Bytes, Delta, RowChanges};
use outside::Disk;
use page_journal::StoreFault;
use style_read::Style;

impl<D: Disk> Follower<'_, D> {
    ghost use Rattle.update_flow.specs.Follower.{StaysFollower, TakesBlock, handle_of};

    /// A block is taken, in one commit. `false`: its version is none that is new, and nothing was done.
    pub fn apply(&mut self, block: Block) -> Result<bool, FollowFault>
        requires sound { IsSoundBlock (style_of (handle_of self.old)) block }
        // First by the numbers alone, which leave all as it is.
        ensures unbegun { IsErrOf result NotImported ↔ IsUnbegun (handle_of self.old) block }
        ensures gap { (have got : ℕ) → IsErrOf result (Gap have got) ↔ IsGap (handle_of self.old) block have got }
        ensures unmoved { (IsNext (handle_of self.old) block → ⊥) → self.new ≡ self.old }

        // A block that is next is taken, or is not new.
        ensures takes { IsNext (handle_of self.old) block → TakesBlock block self.old self.new (flow_of result) }
        ensures stays { StaysFollower (Some (Follow block)) self.old self.new (flow_of result) }
    {
        match self.unfit(&block) {
            Some(fault) => Err(fault),
            None => match self.take(block) {
                Ok(taken) => Ok(taken),
                Err(fault) => Err(FollowFault::Flow(fault)),
            },
        }
    }

    /// Why a block is not the next one, by the numbers alone.
    fn unfit(&self, block: &Block) -> Option<FollowFault>
        ensures unbegun { result ≡ Some NotImported ↔ IsUnbegun (handle_of self.now) block.now }
        ensures gap { (have got : ℕ) → result ≡ Some (Gap have got) ↔ IsGap (handle_of self.now) block.now have got }
        ensures alone { IfSome result IsByNumbers }
    {
        let Block::Delta(delta) = block else {
            return None;
        };
        if self.style.is_none() {
            return Some(FollowFault::NotImported);
        }
        if delta.version > self.version && delta.version - self.version > 1 {
            return Some(FollowFault::Gap {
                have: self.version,
                got: delta.version,
            });
        }
        None
    }

    /// Whether the tables have not seen a version.
    fn is_later(&self, version: u64) -> bool
        ensures is { result ≡ is_later (handle_of self.now) version }
    {
        match &self.style {
            Some(_) => self.version < version,
            None => true,
        }
    }

    /// A block that is next is taken.
    fn take(&mut self, block: Block) -> Result<bool, FlowFault>
        requires sound { IsSoundBlock (style_of (handle_of self.old)) block }
        requires next { IsNext (handle_of self.old) block }
        ensures takes { TakesBlock block self.old self.new result }
    {
        match block {
            Block::Full {
                version,
                style_bytes,
                style,
                rows,
            } => self.take_full(version, style_bytes, style, rows),
            Block::Delta(delta) => self.take_delta(delta),
        }
    }

    /// Whole tables are taken.
    fn take_full(
        &mut self,
        version: u64,
        style_bytes: Bytes,
        style: Style,
        rows: RowChanges,
    ) -> Result<bool, FlowFault>
        requires block { IsFull version style_bytes style rows }
        ensures takes { TakesBlock (blocks.Full version style_bytes style rows) self.old self.new result }
    {
        if !self.is_later(version) {
            return Ok(false);
        }
        let Some(store) = self.store.take() else {
            return Err(FlowFault::Store(StoreFault::Broken));
        };
        match whole_on(
            self.alloc,
            self.disk,
            &self.limits,
            store,
            &mut self.store,
            version,
            style_bytes,
            &style,
            rows,
        ) {
            Ok(()) => {
                self.version = version;
                self.style = Some(style);
                Ok(true)
            }
            Err(fault) => Err(fault),
        }
    }

    /// What the next change made of the tables is taken.
    fn take_delta(&mut self, delta: Delta) -> Result<bool, FlowFault>
        requires block { IsDelta (tables_of (style_of (handle_of self.old))) delta.version delta.changes }
        requires next { IsNext (handle_of self.old) (blocks.Delta delta) }
        ensures takes { TakesBlock (blocks.Delta delta) self.old self.new result }
    {
        let version = delta.version;
        if !self.is_later(version) {
            return Ok(false);
        }
        let Some(style) = &self.style else {
            unreachable!()
        };
        let Some(store) = self.store.take() else {
            return Err(FlowFault::Store(StoreFault::Broken));
        };
        match delta_on(
            self.alloc,
            self.disk,
            &self.limits,
            store,
            &mut self.store,
            style,
            delta,
        ) {
            Ok(()) => {
                self.version = version;
                Ok(true)
            }
            Err(fault) => Err(fault),
        }
    }
}
