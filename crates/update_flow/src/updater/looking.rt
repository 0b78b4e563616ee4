//! An open store is looked at.
ghost use Rattle.std.specs.Prelude.{◌≡◌, ℕ, None, IfOk};
ghost use Rattle.std.specs.Result.{result_err};
ghost use Rattle.row_rules.specs.Row.{tables};
ghost use Rattle.tile_cover.specs.Runs.{has};
ghost use Rattle.update_flow.specs.Changes.{only_table};
ghost use Rattle.update_flow.specs.Handle.{IsOpen, Looks};
ghost use Rattle.update_flow.specs.SoundTurns.{IsOpenSound, LooksSound};
ghost use Rattle.update_flow.specs.State.{Holding, State, imported};

use super::Updater;
use crate::FlowFault;
use crate::over_disk::{due_on, rows_on, sorted_on, style_bytes_on};
use osm_base::{Bytes, Tables};
use outside::Disk;
use page_journal::StoreFault;
use store_maps::SortedRows;
use tile_cover::TileRuns;

impl<D: Disk> Updater<'_, D> {
    ghost use Rattle.update_flow.specs.Updater.{StaysOpen, handle_of};

    /// The bytes of the style.
    pub fn style_bytes(&mut self) -> Result<Bytes, FlowFault>
        ensures looks { (state : State) → IsOpen state (handle_of self.old) → Looks state (result_err result) (handle_of self.old) (handle_of self.new) }
        ensures bytes { IfOk result (λ found. (held : Holding) → IsOpen (imported held) (handle_of self.old) → found ≡ held.style_bytes) }
        ensures sound { (state : State) → IsOpenSound state (handle_of self.old) → LooksSound state (result_err result) (handle_of self.new) }
        ensures trusted { IfOk result (λ found. (held : Holding) → IsOpenSound (imported held) (handle_of self.old) → found ≡ held.style_bytes) }

        // Whatever the disk holds.
        ensures stays { StaysOpen None self.old self.new result }
    {
        if self.old() {
            return Err(FlowFault::OldFormat);
        }
        if !self.imported() {
            return Err(FlowFault::NotImported);
        }
        let Some(store) = self.store.take() else {
            return Err(FlowFault::Store(StoreFault::Broken));
        };
        style_bytes_on(self.alloc, self.disk, &self.limits, store, &mut self.store)
    }

    /// The rows of all tables: those of a fresh import.
    pub fn load_tables(&mut self) -> Result<Tables, FlowFault>
        ensures looks { (state : State) → IsOpen state (handle_of self.old) → Looks state (result_err result) (handle_of self.old) (handle_of self.new) }
        ensures tables { IfOk result (λ found. (held : Holding) → IsOpen (imported held) (handle_of self.old) → found ≡ tables held.style held.objects) }
        ensures sound { (state : State) → IsOpenSound state (handle_of self.old) → LooksSound state (result_err result) (handle_of self.new) }

        // Whatever the disk holds.
        ensures stays { StaysOpen None self.old self.new result }
    {
        if self.old() {
            return Err(FlowFault::OldFormat);
        }
        let Some(style) = &self.style else {
            return Err(FlowFault::NotImported);
        };
        let Some(store) = self.store.take() else {
            return Err(FlowFault::Store(StoreFault::Broken));
        };
        rows_on(
            self.alloc,
            self.disk,
            &self.limits,
            store,
            &mut self.store,
            style,
            None,
        )
    }

    /// The rows of all tables, those of a fresh import, in the order of their spots.
    pub fn load_sorted(&mut self) -> Result<SortedRows, FlowFault>
        ensures looks { (state : State) → IsOpen state (handle_of self.old) → Looks state (result_err result) (handle_of self.old) (handle_of self.new) }
        ensures tables { IfOk result (λ found. (held : Holding) → IsOpen (imported held) (handle_of self.old) → found ≡ tables held.style held.objects) }
        ensures sound { (state : State) → IsOpenSound state (handle_of self.old) → LooksSound state (result_err result) (handle_of self.new) }

        // Whatever the disk holds.
        ensures stays { StaysOpen None self.old self.new result }
    {
        if self.old() {
            return Err(FlowFault::OldFormat);
        }
        let Some(style) = &self.style else {
            return Err(FlowFault::NotImported);
        };
        let Some(store) = self.store.take() else {
            return Err(FlowFault::Store(StoreFault::Broken));
        };
        sorted_on(
            self.alloc,
            self.disk,
            &self.limits,
            store,
            &mut self.store,
            style,
        )
    }

    /// The rows of the table with this number, from 0, and of no other.
    pub fn load_table(&mut self, table: u32) -> Result<Tables, FlowFault>
        ensures looks { (state : State) → IsOpen state (handle_of self.old) → Looks state (result_err result) (handle_of self.old) (handle_of self.new) }
        ensures table { IfOk result (λ found. (held : Holding) → IsOpen (imported held) (handle_of self.old) → found ≡ only_table table (tables held.style held.objects)) }
        ensures sound { (state : State) → IsOpenSound state (handle_of self.old) → LooksSound state (result_err result) (handle_of self.new) }

        // Whatever the disk holds.
        ensures stays { StaysOpen None self.old self.new result }
    {
        if self.old() {
            return Err(FlowFault::OldFormat);
        }
        let Some(style) = &self.style else {
            return Err(FlowFault::NotImported);
        };
        let Some(store) = self.store.take() else {
            return Err(FlowFault::Store(StoreFault::Broken));
        };
        rows_on(
            self.alloc,
            self.disk,
            &self.limits,
            store,
            &mut self.store,
            style,
            Some(table),
        )
    }

    /// The tiles that are due.
    pub fn due(&mut self) -> Result<TileRuns, FlowFault>
        ensures looks { (state : State) → IsOpen state (handle_of self.old) → Looks state (result_err result) (handle_of self.old) (handle_of self.new) }
        ensures due { IfOk result (λ found. (held : Holding) → IsOpen (imported held) (handle_of self.old)
            → (zoom x y : ℕ) → has found zoom x y ≡ held.due zoom x y) }
        ensures sound { (state : State) → IsOpenSound state (handle_of self.old) → LooksSound state (result_err result) (handle_of self.new) }

        // Whatever the disk holds.
        ensures stays { StaysOpen None self.old self.new result }
    {
        if self.old() {
            return Err(FlowFault::OldFormat);
        }
        if !self.imported() {
            return Err(FlowFault::NotImported);
        }
        let Some(store) = self.store.take() else {
            return Err(FlowFault::Store(StoreFault::Broken));
        };
        due_on(self.alloc, self.disk, &self.limits, store, &mut self.store)
    }
}
