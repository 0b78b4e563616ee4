//! `tiles STORE MINZOOM`: the tiles that are due.
ghost use Rattle.updater.specs.Command.{IsReadAs};
ghost use Rattle.updater.specs.commands.Tiles as tiles;
ghost use Rattle.std.specs.Result.{result_err};
ghost use Rattle.update_flow.specs.State.{State};
ghost use Rattle.update_flow.specs.Handle.{view_of};
ghost use Rattle.update_flow.specs.Updater.{handle_of};
ghost use Rattle.run_promise.specs.Course.{opens};
ghost use Rattle.updater.specs.Heads.{GoesOn, IsHead};
ghost use Rattle.run_promise.specs.Progress.{Progress};
ghost use Rattle.run_promise.specs.World.{Before, world};
ghost use Rattle.run_promise.specs.Courses.{tiles_of_store};
ghost use Rattle.updater.specs.Works.{Does, KeepsOpen, NoFile};

use crate::forms::Words;
use crate::number::number_in;
use crate::options::{Allowed, options_of};
use crate::telling::tell_tiles;
use crate::words::Command;
use due_tiles::TileLevels;
use osm_base::Limits;
use outside::{Disk, Inputs, Sink};
use run_promise::Fault;
use std::alloc::Global;
use tile_cover::MAX_ZOOM;
use update_flow::{Updater, open};

/// The options that belong to it.
const ALLOWED: Allowed = Allowed {
    workers: false,
    readers: false,
    buckets: false,
    clear: true,
    ahead: false,
    full: false,
};

/// The form of its words.
pub fn form(words: Words<'_>) -> Option<Command<'_>>
    ensures read { IsReadAs tiles.form words.entry result }
{
    let own = options_of(ALLOWED, words.options)?;
    match words.form {
        [store, zoom] => {
            let least = number_in(zoom.as_bytes())?;
            if least > MAX_ZOOM {
                return None;
            }
            Some(Command::Tiles {
                store: store.as_str(),
                least,
                clear: own.clear,
            })
        }
        _ => None,
    }
}

/// Opens the store, and writes the tiles that are due from this zoom on; with `clear` none is due afterwards.
pub fn tiles<I: Inputs, D: Disk, S: Sink>(
    alloc: Global,
    least: u32,
    clear: bool,
    inputs: &I,
    disk: &mut D,
    out: &mut S,
) -> Result<(), Fault>
    ensures does { Does (opens (tiles_of_store least clear)) (λ asked. I.reads inputs.now asked inputs.now) NoFile
        (world (I.view inputs.now) (D.view disk.old) (S.view out.old)) (world (I.view inputs.now) (D.view disk.new) (S.view out.new)) (result_err result) }
{
    let limits = Limits::standard();
    let found = match open(alloc, disk, &limits) {
        Ok(found) => found,
        Err(fault) => return Err(Fault::in_flow(fault)),
    };
    let Some(opened) = found else {
        return Err(Fault::Follower);
    };
    let mut store = Updater::over(alloc, disk, opened, &limits);
    let done = tiles_in(alloc, least, clear, inputs, &mut store, out);
    let _disk = store.close();
    done
}

/// The same of an open store.
fn tiles_in<I: Inputs, D: Disk, S: Sink>(
    alloc: Global,
    least: u32,
    clear: bool,
    inputs: &I,
    store: &mut Updater<'_, D>,
    out: &mut S,
) -> Result<(), Fault>
    ensures goes_on { (old : Before) (start done : Progress) (state : State) → IsHead start done state 0 old (I.view inputs.now) (handle_of store.old) (S.view out.old)
        → GoesOn (tiles_of_store least clear state) start done (result_err result) old (world (I.view inputs.now) (view_of (handle_of store.new)) (S.view out.new)) }
    ensures keeps { KeepsOpen (result_err result) store.old store.new }
{
    if store.old() {
        return Err(Fault::OldFormat);
    }
    if !store.imported() {
        return Err(Fault::NotImported);
    }
    let due = match store.due() {
        Ok(due) => due,
        Err(fault) => return Err(Fault::in_flow(fault)),
    };
    let tiles = match TileLevels::of(alloc, &due, least) {
        Ok(tiles) => tiles,
        Err(_) => return Err(Fault::OutOfMemory),
    };
    if let Err(fault) = tell_tiles(out, &tiles) {
        return Err(fault);
    }
    if !clear {
        return Ok(());
    }
    match store.clear_due() {
        Ok(()) => Ok(()),
        Err(fault) => Err(Fault::in_flow(fault)),
    }
}
