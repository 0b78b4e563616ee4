//! An open store that follows another one, or one that was only made and may begin to.
ghost use Rattle.std.specs.Prelude.{◌≡◌, ◌≤◌, Some, None, IfSome, if◌then◌else◌};
ghost use Rattle.std.specs.Option.{option_copied};
ghost use Rattle.update_flow.specs.AtRest.{IsAt};
ghost use Rattle.update_flow.specs.Handle.{IsOpen, changes_of, is_follower, style_of};
ghost use Rattle.update_flow.specs.State.{State};
ghost use Rattle.update_flow.specs.declared.fault.TheConstants.{LAST_CHANGE};

mod applying;
mod looking;

use crate::Base;
use bucket_store::Resting;
use osm_base::Limits;
use outside::Disk;
use std::alloc::Global;
use style_read::Style;

/// An open store that follows another one, over the disk that it borrows. Nothing is kept of it once a call of the disk has failed.
/// Without a style it was only made.
#[derive(Drop)]
pub struct Follower<'d, D: Disk> {
    disk: &'d mut D,
    alloc: Global,
    limits: Limits,
    store: Option<Resting>,
    version: u64,
    style: Option<Style>,
    ghost counted: { version ≤ LAST_CHANGE },
}

impl<'d, D: Disk> Follower<'d, D> {
    ghost use Rattle.update_flow.specs.Follower.{FoundBase, TellsBase, disk_of, handle_of, loan_of};

    /// The store of a disk that was opened.
    pub fn over(alloc: Global, disk: &'d mut D, base: Base, limits: &Limits) -> Self
        ensures open { (state : State) → IsAt state (D.view disk.entry.now) → FoundBase state (D.view disk.entry.now) base → IsOpen state (handle_of result) }
        ensures same_disk { loan_of result ≡ disk.entry.ghost_name }
        ensures disk { disk_of result ≡ disk.entry.now }
        ensures tells { TellsBase limits.now base (handle_of result) }
    {
        let Base {
            store,
            version,
            style,
        } = base;
        Follower {
            disk,
            alloc,
            limits: *limits,
            store: Some(store),
            version,
            style,
        }
    }

    /// Hands the disk back.
    pub fn close(self) -> &'d mut D
        ensures same_disk { result.ghost_name ≡ loan_of self.entry }
        ensures disk { result.now ≡ disk_of self.entry }
    {
        let Follower {
            disk,
            alloc: _,
            limits: _,
            store: _,
            version: _,
            style: _,
        } = self;
        disk
    }

    /// How many changes the tables have seen. `None`: the store was only made.
    pub fn version(&self) -> Option<u64>
        ensures version { result ≡ (if is_follower (handle_of self.now) then Some (changes_of (handle_of self.now)) else None) }
        ensures bound { IfSome result (λ version. version ≤ LAST_CHANGE) }
    {
        match &self.style {
            Some(_) => Some(self.version),
            None => None,
        }
    }

    /// The style of the tables. `None`: the store was only made.
    pub fn style(&self) -> Option<&Style>
        ensures style { option_copied result ≡ style_of (handle_of self.now) }
    {
        self.style.as_ref()
    }
}
