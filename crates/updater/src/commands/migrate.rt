//! `migrate STORE`: a store of the old format gets this one.
ghost use Rattle.std.specs.Result.{result_err};
ghost use Rattle.update_flow.specs.Handle.{view_of};
ghost use Rattle.update_flow.specs.State.{State};
ghost use Rattle.update_flow.specs.Updater.{handle_of};
ghost use Rattle.updater.specs.Command.{IsReadAs};
ghost use Rattle.run_promise.specs.Course.{opens};
ghost use Rattle.run_promise.specs.Courses.{migrates};
ghost use Rattle.updater.specs.Heads.{GoesOn, IsHead};
ghost use Rattle.run_promise.specs.Progress.{Progress};
ghost use Rattle.updater.specs.Works.{Does, KeepsOpen, NoFile};
ghost use Rattle.run_promise.specs.World.{Before, world};
ghost use Rattle.updater.specs.commands.Migrate as migrate;

use crate::forms::{Words, stored};
use crate::telling::tell;
use crate::words::Command;
use osm_base::Limits;
use outside::{Disk, Inputs, Sink};
use run_promise::Fault;
use std::alloc::Global;
use update_flow::{Updater, open};

/// The line that tells the format of the store.
const FORMAT_LINE: &str = "format 2\n";

/// The form of its words.
pub fn form(words: Words<'_>) -> Option<Command<'_>>
    ensures read { IsReadAs migrate.form words.entry result }
{
    let store = stored(words)?;
    Some(Command::Migrate { store })
}

/// Opens the store, writes it anew where it is one of the old format, and tells the format that it has then.
pub fn migrate<I: Inputs, D: Disk, S: Sink>(
    alloc: Global,
    inputs: &I,
    disk: &mut D,
    out: &mut S,
) -> Result<(), Fault>
    ensures does { Does (opens migrates) (λ asked. I.reads inputs.now asked inputs.now) NoFile
        (world (I.view inputs.now) (D.view disk.old) (S.view out.old)) (world (I.view inputs.now) (D.view disk.new) (S.view out.new)) (result_err result) }
{
    let limits = Limits::standard();
    let found = match open(alloc, disk, &limits) {
        Ok(found) => found,
        Err(fault) => return Err(Fault::in_flow(fault)),
    };
    let Some(opened) = found else {
        return Err(Fault::Follower);
    };
    let mut store = Updater::over(alloc, disk, opened, &limits);
    let done = migrate_store(inputs, &mut store, out);
    let _disk = store.close();
    done
}

/// The same of an open store.
fn migrate_store<I: Inputs, D: Disk, S: Sink>(
    inputs: &I,
    store: &mut Updater<'_, D>,
    out: &mut S,
) -> Result<(), Fault>
    ensures goes_on { (old : Before) (start done : Progress) (state : State) → IsHead start done state 0 old (I.view inputs.now) (handle_of store.old) (S.view out.old)
        → GoesOn (migrates state) start done (result_err result) old (world (I.view inputs.now) (view_of (handle_of store.new)) (S.view out.new)) }
    ensures keeps { KeepsOpen (result_err result) store.old store.new }
{
    if !store.imported() {
        return Err(Fault::NotImported);
    }
    if !store.old() {
        return tell(out, FORMAT_LINE.as_bytes());
    }
    match store.migrate() {
        Ok(()) => tell(out, FORMAT_LINE.as_bytes()),
        Err(fault) => Err(Fault::in_flow(fault)),
    }
}
