//! An open store.
ghost use Rattle.std.specs.Prelude.{◌≡◌, ◌≤◌, None, false};
ghost use Rattle.std.specs.Option.{option_copied};
ghost use Rattle.update_flow.specs.AtRest.{IsAt};
ghost use Rattle.update_flow.specs.Handle.{IsOpen, changes_of, is_imported, is_old, style_of};
ghost use Rattle.update_flow.specs.Opening.{Found};
ghost use Rattle.update_flow.specs.State.{State};
ghost use Rattle.update_flow.specs.declared.fault.TheConstants.{LAST_CHANGE};

mod appending;
mod importing;
mod looking;
mod migrating;
mod standing;
mod turning;

use crate::Opened;
use bucket_store::Resting;
use osm_base::Limits;
use outside::Disk;
use std::alloc::Global;
use style_read::Style;

/// An open store, over the disk that it borrows. Nothing is kept of it once a call of the disk has failed.
#[derive(Drop)]
pub struct Updater<'d, D: Disk> {
    disk: &'d mut D,
    alloc: Global,
    limits: Limits,
    store: Option<Resting>,
    changes: u64,
    style: Option<Style>,
    outdated: bool,
    ghost counted: { changes ≤ LAST_CHANGE },
    ghost unbegun: { style ≡ None → outdated ≡ false },
}

impl<'d, D: Disk> Updater<'d, D> {
    ghost use Rattle.update_flow.specs.SoundTurns.{FindsSound, IsSoundlyOpen};
    ghost use Rattle.update_flow.specs.Updater.{TellsFound, disk_of, handle_of, loan_of};

    /// The store of a disk that was opened.
    pub fn over(alloc: Global, disk: &'d mut D, opened: Opened, limits: &Limits) -> Self
        ensures open { (state : State) → IsAt state (D.view disk.entry.now) → Found state (D.view disk.entry.now) opened → IsOpen state (handle_of result) }
        ensures sound { FindsSound (D.view disk.entry.now) opened → IsSoundlyOpen (handle_of result) }
        ensures same_disk { loan_of result ≡ disk.entry.ghost_name }
        ensures disk { disk_of result ≡ disk.entry.now }
        ensures tells { TellsFound limits.now opened (handle_of result) }
    {
        let Opened {
            store,
            changes,
            style,
            outdated,
        } = opened;
        Updater {
            disk,
            alloc,
            limits: *limits,
            store: Some(store),
            changes,
            style,
            outdated,
        }
    }

    /// Hands the disk back.
    pub fn close(self) -> &'d mut D
        ensures same_disk { result.ghost_name ≡ loan_of self.entry }
        ensures disk { result.now ≡ disk_of self.entry }
    {
        let Updater {
            disk,
            alloc: _,
            limits: _,
            store: _,
            changes: _,
            style: _,
            outdated: _,
        } = self;
        disk
    }

    /// The number of changes since the import.
    pub fn changes(&self) -> u64
        ensures number { result ≡ changes_of (handle_of self.now) }
        ensures bound { result ≤ LAST_CHANGE }
    {
        self.changes
    }

    /// Whether the store was imported.
    pub fn imported(&self) -> bool
        ensures is { result ≡ is_imported (handle_of self.now) }
    {
        self.style.is_some()
    }

    /// Whether it is an old store: it was imported by a program of before, and is to be migrated.
    pub fn old(&self) -> bool
        ensures is { result ≡ is_old (handle_of self.now) }
    {
        self.outdated
    }

    /// The style of the store. `None`: it was not imported.
    pub fn style(&self) -> Option<&Style>
        ensures style { option_copied result ≡ style_of (handle_of self.now) }
    {
        self.style.as_ref()
    }
}
