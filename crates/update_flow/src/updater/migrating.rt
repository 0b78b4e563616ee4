//! An open old store is written in the format of today.
ghost use Rattle.std.specs.Prelude.{◌≡◌, false, true, Some, IsErrOf, IsOk, OnOk};
ghost use Rattle.std.specs.Result.{result_err};
ghost use Rattle.outside.specs.Disk.{Stays};
ghost use Rattle.update_flow.specs.Handle.{IsOpen, Takes, changes_of, is_imported, is_old, style_of, view_of};
ghost use Rattle.update_flow.specs.State.{Migrate, State};
ghost use Rattle.update_flow.specs.declared.fault.FlowFault.TheVariants.{OldFormat};

use super::Updater;
use crate::FlowFault;
use crate::over_disk::migrate_on;
use outside::Disk;
use page_journal::StoreFault;

impl<D: Disk> Updater<'_, D> {
    ghost use Rattle.update_flow.specs.Updater.{StaysOpen, handle_of};

    /// An old store has the format of today, by one commit: of its nodes it knows the places, and no tags. A store that has it
    /// already is left as it is.
    pub fn migrate(&mut self) -> Result<(), FlowFault>
        ensures takes { (state : State) → IsOpen state (handle_of self.old) → Takes state Migrate (result_err result) (handle_of self.old) (handle_of self.new) }
        ensures unwritten { is_old (handle_of self.old) ≡ false → Stays (view_of (handle_of self.old)) (view_of (handle_of self.new)) }

        // Whatever the disk holds.
        ensures again { is_imported (handle_of self.old) ≡ true → is_old (handle_of self.old) ≡ false → IsOk result }
        ensures migrated { OnOk result ((is_imported (handle_of self.new) ≡ true) × (is_old (handle_of self.new) ≡ false)
            × (changes_of (handle_of self.new) ≡ changes_of (handle_of self.old)) × (style_of (handle_of self.new) ≡ style_of (handle_of self.old))) }
        ensures never { ¬ IsErrOf result OldFormat }
        ensures stays { StaysOpen (Some Migrate) self.old self.new result }
    {
        if !self.imported() {
            return Err(FlowFault::NotImported);
        }
        if !self.old() {
            return Ok(());
        }
        let Some(store) = self.store.take() else {
            return Err(FlowFault::Store(StoreFault::Broken));
        };
        match migrate_on(self.alloc, self.disk, &self.limits, store, &mut self.store) {
            Ok(()) => {
                self.outdated = false;
                Ok(())
            }
            Err(fault) => Err(fault),
        }
    }
}
