//! An open store that follows another one is looked at.
ghost use Rattle.std.specs.Prelude.{◌≡◌, ◌↔◌, None, false, IfOk, IsErrOf};
ghost use Rattle.std.specs.Result.{result_err};
ghost use Rattle.update_flow.specs.Changes.{only_table};
ghost use Rattle.update_flow.specs.Handle.{IsOpen, Looks, is_follower};
ghost use Rattle.update_flow.specs.State.{Following, State, following};
ghost use Rattle.update_flow.specs.declared.fault.FlowFault.TheVariants.{NotImported};

use super::Follower;
use crate::FlowFault;
use crate::over_disk::rows_on;
use osm_base::Tables;
use outside::Disk;
use page_journal::StoreFault;

impl<D: Disk> Follower<'_, D> {
    ghost use Rattle.update_flow.specs.Follower.{StaysFollower, handle_of};

    /// The rows of all tables.
    pub fn load_tables(&mut self) -> Result<Tables, FlowFault>
        ensures looks { (state : State) → IsOpen state (handle_of self.old) → Looks state (result_err result) (handle_of self.old) (handle_of self.new) }
        ensures tables { IfOk result (λ found. (held : Following) → IsOpen (following held) (handle_of self.old) → found ≡ held.tables) }

        // Whatever the disk holds.
        ensures unbegun { IsErrOf result NotImported ↔ is_follower (handle_of self.old) ≡ false }
        ensures stays { StaysFollower None self.old self.new result }
    {
        let Some(style) = &self.style else {
            return Err(FlowFault::NotImported);
        };
        let Some(store) = self.store.take() else {
            return Err(FlowFault::Store(StoreFault::Broken));
        };
        rows_on(
            self.alloc,
            self.disk,
            &self.limits,
            store,
            &mut self.store,
            style,
            None,
        )
    }

    /// The rows of the table with this number, from 0, and of no other.
    pub fn load_table(&mut self, table: u32) -> Result<Tables, FlowFault>
        ensures looks { (state : State) → IsOpen state (handle_of self.old) → Looks state (result_err result) (handle_of self.old) (handle_of self.new) }
        ensures table { IfOk result (λ found. (held : Following) → IsOpen (following held) (handle_of self.old) → found ≡ only_table table held.tables) }

        // Whatever the disk holds.
        ensures unbegun { IsErrOf result NotImported ↔ is_follower (handle_of self.old) ≡ false }
        ensures stays { StaysFollower None self.old self.new result }
    {
        let Some(style) = &self.style else {
            return Err(FlowFault::NotImported);
        };
        let Some(store) = self.store.take() else {
            return Err(FlowFault::Store(StoreFault::Broken));
        };
        rows_on(
            self.alloc,
            self.disk,
            &self.limits,
            store,
            &mut self.store,
            style,
            Some(table),
        )
    }
}
