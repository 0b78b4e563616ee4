//! The first import into an open store.
ghost use Rattle.std.specs.Prelude.{◌≡◌, ◌≤◌, Ok, Some, IsTrue, true, false, length, OnOk};
ghost use Rattle.std.specs.Int.{is_power_of_two};
ghost use Rattle.std.specs.Result.{result_err};
ghost use Rattle.style_read.specs.Reading.{reading};
ghost use Rattle.update_flow.specs.Handle.{IsOpen, Takes, changes_of, is_imported, is_old, style_of};
ghost use Rattle.update_flow.specs.SoundTurns.{IsOpenSound, TakesSound};
ghost use Rattle.update_flow.specs.State.{Import, State};

use super::Updater;
use crate::FlowFault;
use crate::over_disk::import_on;
use geom_workers::Hands;
use object_fold::Change;
use outside::{Disk, Gate};
use page_journal::StoreFault;
use std::thread::Threads;
use style_read::Style;

impl<D: Disk> Updater<'_, D> {
    ghost use Rattle.update_flow.specs.Updater.{StaysOpen, handle_of};

    /// The first import, in one commit: the entries' objects with their rows under the style. Each of the eight maps has so many
    /// buckets from then on. The rows are built by all workers, which pass the gate at `Drawn` and `Built`.
    pub fn import<R: Threads + Sync, G: Gate>(
        &mut self,
        hands: &Hands<'_, R, G>,
        style_bytes: &[u8],
        style: Style,
        change: Change,
        buckets: u64,
    ) -> Result<(), FlowFault>
        requires style { reading style_bytes.now ≡ Ok style }
        requires power { IsTrue (is_power_of_two buckets) }
        requires few_buckets { buckets ≤ 65536 }
        requires few { length change ≤ 16777216 }
        ensures takes { (state : State) → IsOpen state (handle_of self.old)
            → Takes state (Import style style_bytes.now buckets change) (result_err result) (handle_of self.old) (handle_of self.new) }
        ensures sound { (state : State) → IsOpenSound state (handle_of self.old)
            → TakesSound state (Import style style_bytes.now buckets change) (result_err result) (handle_of self.old) (handle_of self.new) }

        // Whatever the disk holds.
        ensures imported { OnOk result ((is_imported (handle_of self.new) ≡ true) × (is_old (handle_of self.new) ≡ false)
            × (changes_of (handle_of self.new) ≡ 0) × (style_of (handle_of self.new) ≡ Some style)) }
        ensures stays { StaysOpen (Some (Import style style_bytes.now buckets change)) self.old self.new result }
    {
        if self.old() {
            return Err(FlowFault::OldFormat);
        }
        if self.imported() {
            return Err(FlowFault::AlreadyImported);
        }
        let Some(store) = self.store.take() else {
            return Err(FlowFault::Store(StoreFault::Broken));
        };
        match import_on(
            hands,
            self.disk,
            &self.limits,
            store,
            &mut self.store,
            style_bytes,
            &style,
            change,
            buckets,
        ) {
            Ok(()) => {
                self.changes = 0;
                self.style = Some(style);
                Ok(())
            }
            Err(fault) => Err(fault),
        }
    }
}
