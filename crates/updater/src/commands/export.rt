//! `export STORE TABLE`: the rows of a table.
ghost use Rattle.updater.specs.Command.{IsReadAs};
ghost use Rattle.updater.specs.commands.Export as export;
ghost use Rattle.std.specs.Result.{result_err};
ghost use Rattle.update_flow.specs.Follower.{handle_of as seen};
ghost use Rattle.update_flow.specs.State.{Following, State, following};
ghost use Rattle.update_flow.specs.Handle.{view_of};
ghost use Rattle.update_flow.specs.Updater.{handle_of};
ghost use Rattle.run_promise.specs.Course.{opens};
ghost use Rattle.updater.specs.Heads.{GoesOn, IsHead};
ghost use Rattle.run_promise.specs.Progress.{Progress};
ghost use Rattle.run_promise.specs.World.{Before, world};
ghost use Rattle.run_promise.specs.Courses.{export_from};
ghost use Rattle.updater.specs.Following.{KeepsFollower};
ghost use Rattle.updater.specs.Works.{Does, KeepsOpen, NoFile};

use crate::forms::Words;
use crate::telling::tell;
use crate::words::Command;
use osm_base::Limits;
use outside::{Disk, Inputs, Sink};
use row_text::table_text;
use run_promise::Fault;
use std::alloc::Global;
use update_flow::{Either, Follower, Updater, open_either};

/// The form of its words.
pub fn form(words: Words<'_>) -> Option<Command<'_>>
    ensures read { IsReadAs export.form words.entry result }
{
    match words.form {
        [store, table] if words.options.is_empty() => Some(Command::Export {
            store: store.as_str(),
            table: table.as_str(),
        }),
        _ => None,
    }
}

/// Opens the store, and writes the rows of the table.
pub fn export<I: Inputs, D: Disk, S: Sink>(
    alloc: Global,
    table: &str,
    inputs: &I,
    disk: &mut D,
    out: &mut S,
) -> Result<(), Fault>
    ensures does { Does (opens (export_from table.now)) (λ asked. I.reads inputs.now asked inputs.now) NoFile
        (world (I.view inputs.now) (D.view disk.old) (S.view out.old)) (world (I.view inputs.now) (D.view disk.new) (S.view out.new)) (result_err result) }
{
    let limits = Limits::standard();
    let found = match open_either(alloc, disk, &limits) {
        Ok(found) => found,
        Err(fault) => return Err(Fault::in_flow(fault)),
    };
    match found {
        Either::Updates(opened) => {
            let mut store = Updater::over(alloc, disk, opened, &limits);
            let done = export_store(alloc, table, inputs, &mut store, out);
            let _disk = store.close();
            done
        }
        Either::Follows(base) => {
            let mut store = Follower::over(alloc, disk, base, &limits);
            let done = export_followed(alloc, table, inputs, &mut store, out);
            let _disk = store.close();
            done
        }
    }
}

/// The same of an open store that follows another one.
fn export_followed<I: Inputs, D: Disk, S: Sink>(
    alloc: Global,
    table: &str,
    inputs: &I,
    store: &mut Follower<'_, D>,
    out: &mut S,
) -> Result<(), Fault>
    ensures goes_on { (old : Before) (start done : Progress) (held : Following) → IsHead start done (following held) 0 old (I.view inputs.now) (seen store.old) (S.view out.old)
        → GoesOn (export_from table.now (following held)) start done (result_err result) old
        (world (I.view inputs.now) (view_of (seen store.new)) (S.view out.new)) }
    ensures keeps { KeepsFollower (result_err result) store.old store.new }
{
    let number = match store.style() {
        Some(style) => style.table_named(table),
        None => return Err(Fault::NotImported),
    };
    let Some(number) = number else {
        return Err(Fault::UnknownTable);
    };
    let tables = match store.load_table(number) {
        Ok(tables) => tables,
        Err(fault) => return Err(Fault::in_flow(fault)),
    };
    let text = match store.style() {
        Some(style) => table_text(alloc, style, &tables, number),
        None => return Err(Fault::NotImported),
    };
    match text {
        Ok(text) => tell(out, text.as_str().as_bytes()),
        Err(_) => Err(Fault::OutOfMemory),
    }
}

/// The same of an open store.
fn export_store<I: Inputs, D: Disk, S: Sink>(
    alloc: Global,
    table: &str,
    inputs: &I,
    store: &mut Updater<'_, D>,
    out: &mut S,
) -> Result<(), Fault>
    ensures goes_on { (old : Before) (start done : Progress) (state : State) → IsHead start done state 0 old (I.view inputs.now) (handle_of store.old) (S.view out.old)
        → GoesOn (export_from table.now state) start done (result_err result) old (world (I.view inputs.now) (view_of (handle_of store.new)) (S.view out.new)) }
    ensures keeps { KeepsOpen (result_err result) store.old store.new }
{
    if store.old() {
        return Err(Fault::OldFormat);
    }
    let number = match store.style() {
        Some(style) => style.table_named(table),
        None => return Err(Fault::NotImported),
    };
    let Some(number) = number else {
        return Err(Fault::UnknownTable);
    };
    let tables = match store.load_table(number) {
        Ok(tables) => tables,
        Err(fault) => return Err(Fault::in_flow(fault)),
    };
    let text = match store.style() {
        Some(style) => table_text(alloc, style, &tables, number),
        None => return Err(Fault::NotImported),
    };
    match text {
        Ok(text) => tell(out, text.as_str().as_bytes()),
        Err(_) => Err(Fault::OutOfMemory),
    }
}
