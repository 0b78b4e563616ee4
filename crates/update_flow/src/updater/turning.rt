//! An open store is taken a step further.
ghost use Rattle.std.specs.Prelude.{Some};
ghost use Rattle.std.specs.Result.{result_err};
ghost use Rattle.update_flow.specs.Handle.{IsOpen, Takes};
ghost use Rattle.update_flow.specs.SoundTurns.{IsOpenSound, TakesSound};
ghost use Rattle.update_flow.specs.State.{Clear, State};

use super::Updater;
use crate::FlowFault;
use crate::over_disk::clear_on;
use outside::Disk;
use page_journal::StoreFault;

impl<D: Disk> Updater<'_, D> {
    ghost use Rattle.update_flow.specs.Updater.{StaysOpen, handle_of};

    /// No tile is due any more, by one commit.
    pub fn clear_due(&mut self) -> Result<(), FlowFault>
        ensures takes { (state : State) → IsOpen state (handle_of self.old) → Takes state Clear (result_err result) (handle_of self.old) (handle_of self.new) }
        ensures sound { (state : State) → IsOpenSound state (handle_of self.old)
            → TakesSound state Clear (result_err result) (handle_of self.old) (handle_of self.new) }

        // Whatever the disk holds.
        ensures stays { StaysOpen (Some Clear) self.old self.new result }
    {
        if self.old() {
            return Err(FlowFault::OldFormat);
        }
        if !self.imported() {
            return Err(FlowFault::NotImported);
        }
        let Some(store) = self.store.take() else {
            return Err(FlowFault::Store(StoreFault::Broken));
        };
        clear_on(self.alloc, self.disk, &self.limits, store, &mut self.store)
    }
}
