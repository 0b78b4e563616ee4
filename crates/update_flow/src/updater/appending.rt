//! A change of an open store.
ghost use Rattle.std.specs.Prelude.{◌≡◌, ◌+◌, ℕ, List, Some, true, false, IfOk, OnOk};
ghost use Rattle.std.specs.Result.{result_err};
ghost use Rattle.osm_base.specs.map.Objects.{folded_all};
ghost use Rattle.page_journal.specs.Crash.{IsAtRest};
ghost use Rattle.store_maps.specs.Asked.{May};
ghost use Rattle.update_step.specs.Touch.{MayTouch};
ghost use Rattle.update_flow.specs.ChangeReads.{ReadsTouched};
ghost use Rattle.update_flow.specs.Changes.{IsDeltaOf};
ghost use Rattle.update_flow.specs.Handle.{IsOpen, Takes, changes_of, is_imported, is_old, style_of, view_of};
ghost use Rattle.update_flow.specs.SoundTurns.{IsOpenSound, TakesSound};
ghost use Rattle.update_flow.specs.State.{Append, Holding, State, imported};

use super::Updater;
use crate::over_disk::append_on;
use crate::{FlowFault, LAST_CHANGE};
use geom_workers::Hands;
use object_fold::Change;
use osm_base::Delta;
use outside::{Disk, Gate};
use page_journal::StoreFault;
use std::thread::Threads;
use tile_cover::Bounds;

impl<D: Disk> Updater<'_, D> {
    ghost use Rattle.update_flow.specs.Updater.{StaysOpen, handle_of};

    /// A change, in one commit: the objects, the rows that depend on them and the tiles that are due. Answers how the tables differ
    /// from then on. The rows are built by all workers, which pass the gate at `Drawn` and `Built`.
    pub fn append_one<R: Threads + Sync, G: Gate>(
        &mut self,
        hands: &Hands<'_, R, G>,
        bounds: &Bounds,
        change: Change,
    ) -> Result<Delta, FlowFault>
        ensures takes { (state : State) → IsOpen state (handle_of self.old)
            → Takes state (Append bounds.now change) (result_err result) (handle_of self.old) (handle_of self.new) }
        ensures delta { IfOk result (λ delta. (held : Holding) → IsOpen (imported held) (handle_of self.old)
            → IsDeltaOf held.style held.objects (folded_all held.objects change) (held.changes + 1) delta) }

        // A sound store refuses it for the disk, memory and limits alone, also where nobody knows the tags of some nodes, and is sound
        // after it.
        ensures sound { (state : State) → IsOpenSound state (handle_of self.old)
            → TakesSound state (Append bounds.now change) (result_err result) (handle_of self.old) (handle_of self.new) }

        // It reads no more of the disk than what the change touches, each page once.
        ensures reads { OnOk result ((held : Holding) → IsOpen (imported held) (handle_of self.old) → (may : May)
            → MayTouch held.style held.objects change may → (pages : List (List ℕ)) → IsAtRest pages (view_of (handle_of self.old))
            → ReadsTouched may held.buckets pages (view_of (handle_of self.old)) (view_of (handle_of self.new))) }

        // Whatever the disk holds.
        ensures version { IfOk result (λ delta. delta.version ≡ changes_of (handle_of self.old) + 1) }
        ensures changes { OnOk result (changes_of (handle_of self.new) ≡ changes_of (handle_of self.old) + 1) }
        ensures style { OnOk result ((is_imported (handle_of self.new) ≡ true) × (is_old (handle_of self.new) ≡ false)
            × (style_of (handle_of self.new) ≡ style_of (handle_of self.old))) }
        ensures stays { StaysOpen (Some (Append bounds.now change)) self.old self.new result }
    {
        if self.old() {
            return Err(FlowFault::OldFormat);
        }
        let Some(style) = &self.style else {
            return Err(FlowFault::NotImported);
        };
        if self.changes == LAST_CHANGE {
            return Err(FlowFault::LastChange);
        }
        let Some(store) = self.store.take() else {
            return Err(FlowFault::Store(StoreFault::Broken));
        };
        let version = self.changes + 1;
        let appended = append_on(
            hands,
            self.disk,
            &self.limits,
            store,
            &mut self.store,
            style,
            bounds,
            &change,
            version,
        );
        match appended {
            Ok(changes) => {
                self.changes = version;
                Ok(Delta { version, changes })
            }
            Err(fault) => Err(fault),
        }
    }
}
