//! `query STORE QUERIES`: answers from the tables of a store.
ghost use Rattle.std.specs.Prelude.{◌≡◌};
ghost use Rattle.std.specs.Result.{result_err};
ghost use Rattle.update_flow.specs.Handle.{view_of};
ghost use Rattle.update_flow.specs.State.{State};
ghost use Rattle.update_flow.specs.Updater.{handle_of};
ghost use Rattle.run_promise.specs.CommandOf.{FitFrom};
ghost use Rattle.updater.specs.Command.{IsReadAs};
ghost use Rattle.run_promise.specs.Course.{opens};
ghost use Rattle.run_promise.specs.Courses.{query_from};
ghost use Rattle.updater.specs.Heads.{GoesOn, IsHead};
ghost use Rattle.run_promise.specs.Progress.{Progress};
ghost use Rattle.updater.specs.FileReads.{Among};
ghost use Rattle.updater.specs.Works.{Does, Works};
ghost use Rattle.run_promise.specs.World.{Before, world};
ghost use Rattle.updater.specs.commands.Query as query;

use crate::answers::answers_text;
use crate::file_reads::read_queries_file;
use crate::forms::Words;
use crate::telling::tell;
use crate::words::Command;
use osm_base::Limits;
use outside::{Disk, Inputs, Sink};
use run_promise::{Fault, Files};
use std::alloc::Global;
use update_flow::{Updater, open};

/// The form of its words.
pub fn form(words: Words<'_>) -> Option<Command<'_>>
    ensures read { IsReadAs query.form words.entry result }
{
    match words.form {
        [store, _] if words.options.is_empty() => Some(Command::Query {
            store: store.as_str(),
            files: Files {
                first: words.place + 1,
                count: 1,
            },
        }),
        _ => None,
    }
}

/// Opens the store, and answers the queries.
pub fn query<I: Inputs, D: Disk, S: Sink>(
    alloc: Global,
    files: Files,
    inputs: &mut I,
    disk: &mut D,
    out: &mut S,
) -> Result<(), Fault>
    requires fits { FitFrom 1 files × (files.count ≡ 1) }
    ensures does { Does (opens (query_from files)) (λ asked. I.reads inputs.old asked inputs.new) (Among files.first files.count)
        (world (I.view inputs.old) (D.view disk.old) (S.view out.old)) (world (I.view inputs.new) (D.view disk.new) (S.view out.new)) (result_err result) }
{
    let limits = Limits::standard();
    let found = match open(alloc, disk, &limits) {
        Ok(found) => found,
        Err(fault) => return Err(Fault::in_flow(fault)),
    };
    let Some(opened) = found else {
        return Err(Fault::Follower);
    };
    let mut store = Updater::over(alloc, disk, opened, &limits);
    let done = query_store(alloc, files, inputs, &mut store, out);
    let _disk = store.close();
    done
}

/// The same of an open store.
fn query_store<I: Inputs, D: Disk, S: Sink>(
    alloc: Global,
    files: Files,
    inputs: &mut I,
    store: &mut Updater<'_, D>,
    out: &mut S,
) -> Result<(), Fault>
    requires fits { FitFrom 1 files × (files.count ≡ 1) }
    ensures goes_on { (old : Before) (start done : Progress) (state : State) → IsHead start done state files.first old (I.view inputs.old) (handle_of store.old) (S.view out.old)
        → GoesOn (query_from files state) start done (result_err result) old (world (I.view inputs.new) (view_of (handle_of store.new)) (S.view out.new)) }
    ensures works { Works (λ asked. I.reads inputs.old asked inputs.new) (Among files.first files.count) (result_err result) store.old store.new }
{
    if store.old() {
        return Err(Fault::OldFormat);
    }
    let read = match store.style() {
        Some(style) => read_queries_file(alloc, inputs, files.first, style),
        None => return Err(Fault::NotImported),
    };
    let queries = match read {
        Ok(queries) => queries,
        Err(fault) => return Err(fault),
    };
    let tables = match store.load_tables() {
        Ok(tables) => tables,
        Err(fault) => return Err(Fault::in_flow(fault)),
    };
    let version = store.changes();
    let text = match store.style() {
        Some(style) => answers_text(alloc, style, &tables, version, queries.as_slice()),
        None => return Err(Fault::NotImported),
    };
    match text {
        Ok(text) => tell(out, text.as_bytes()),
        Err(_) => Err(Fault::OutOfMemory),
    }
}
