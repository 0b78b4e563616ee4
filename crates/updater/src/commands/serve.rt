//! `serve STORE BOUNDS QUERIES CHANGE*`: change files, one after another, while readers are answered.
ghost use Rattle.std.specs.Prelude.{◌≡◌, []};
ghost use Rattle.std.specs.Result.{result_err};
ghost use Rattle.row_rules.specs.Row.{tables as tables_in};
ghost use Rattle.update_flow.specs.Handle.{view_of};
ghost use Rattle.update_flow.specs.State.{Holding, State, imported};
ghost use Rattle.update_flow.specs.Updater.{handle_of};
ghost use Rattle.run_promise.specs.Comes.{IsCertain};
ghost use Rattle.run_promise.specs.CommandOf.{AreReaders, FitFrom};
ghost use Rattle.updater.specs.Command.{IsReadAs};
ghost use Rattle.run_promise.specs.Course.{opens};
ghost use Rattle.run_promise.specs.Courses.{serve_to, serves};
ghost use Rattle.updater.specs.Heads.{GoesOn, IsHead};
ghost use Rattle.run_promise.specs.Progress.{Progress};
ghost use Rattle.updater.specs.FileReads.{Among};
ghost use Rattle.updater.specs.Works.{Does, Works};
ghost use Rattle.run_promise.specs.World.{Before, world};
ghost use Rattle.updater.specs.commands.Serve as serve;

use crate::file_reads::{read_bounds_file, read_queries_file};
use crate::forms::{Words, stored_files};
use crate::options::{Allowed, READERS, options_of, usual_workers};
use crate::serving::{Asked, serve_shown};
use crate::words::Command;
use change_pipe::ChangeFiles;
use geom_workers::Hands;
use map_query::Queries;
use osm_base::{Limits, Tables, TryCopy};
use outside::{Disk, Gate, Inputs, Sink};
use reader_rounds::publish_first;
use run_promise::{Fault, Files};
use std::sync::Wait;
use std::thread::Threads;
use tile_cover::Bounds;
use update_flow::{Updater, open};

/// The options that belong to it.
const ALLOWED: Allowed = Allowed {
    workers: true,
    readers: true,
    buckets: false,
    clear: false,
    ahead: false,
    full: false,
};

/// The form of its words.
pub fn form(words: Words<'_>) -> Option<Command<'_>>
    ensures read { IsReadAs serve.form words.entry result }
{
    let own = options_of(ALLOWED, words.options)?;
    let (store, files) = stored_files(words, 2)?;
    Some(Command::Serve {
        store,
        files,
        workers: own.workers.unwrap_or(usual_workers()),
        readers: own.readers.unwrap_or(READERS),
    })
}

/// Opens the store, appends the change files to it under BOUNDS while readers answer QUERIES, and writes what they answered.
pub fn serve<R: Threads + Wait + Sync, I: Inputs, D: Disk, S: Sink, G: Gate>(
    hands: &Hands<'_, R, G>,
    files: Files,
    readers: u32,
    inputs: &mut I,
    disk: &mut D,
    out: &mut S,
) -> Result<(), Fault>
    requires fits { FitFrom 2 files × AreReaders readers }
    ensures does { Does (opens (serve_to files readers)) (λ asked. I.reads inputs.old asked inputs.new) (Among files.first files.count)
        (world (I.view inputs.old) (D.view disk.old) (S.view out.old)) (world (I.view inputs.new) (D.view disk.new) (S.view out.new)) (result_err result) }
{
    let limits = Limits::standard();
    let found = match open(hands.alloc, disk, &limits) {
        Ok(found) => found,
        Err(fault) => return Err(Fault::in_flow(fault)),
    };
    let Some(opened) = found else {
        return Err(Fault::Follower);
    };
    let mut store = Updater::over(hands.alloc, disk, opened, &limits);
    let done = serve_store(hands, files, readers, inputs, &mut store, out);
    let _disk = store.close();
    done
}

/// The same on an open store.
fn serve_store<R: Threads + Wait + Sync, I: Inputs, D: Disk, S: Sink, G: Gate>(
    hands: &Hands<'_, R, G>,
    files: Files,
    readers: u32,
    inputs: &mut I,
    store: &mut Updater<'_, D>,
    out: &mut S,
) -> Result<(), Fault>
    requires fits { FitFrom 2 files × AreReaders readers }
    ensures goes_on { (old : Before) (start done : Progress) (state : State) → IsHead start done state files.first old (I.view inputs.old) (handle_of store.old) (S.view out.old)
        → GoesOn (serve_to files readers state) start done (result_err result) old (world (I.view inputs.new) (view_of (handle_of store.new)) (S.view out.new)) }
    ensures works { Works (λ asked. I.reads inputs.old asked inputs.new) (Among files.first files.count) (result_err result) store.old store.new }
{
    if store.old() {
        return Err(Fault::OldFormat);
    }
    if !store.imported() {
        return Err(Fault::NotImported);
    }
    let bounds = match read_bounds_file(hands.alloc, inputs, files.first) {
        Ok(bounds) => bounds,
        Err(fault) => return Err(fault),
    };
    let read = match store.style() {
        Some(style) => read_queries_file(hands.alloc, inputs, files.first + 1, style),
        None => return Err(Fault::NotImported),
    };
    let queries = match read {
        Ok(queries) => queries,
        Err(fault) => return Err(fault),
    };
    let tables = match store.load_tables() {
        Ok(tables) => tables,
        Err(fault) => return Err(Fault::in_flow(fault)),
    };
    let changes = ChangeFiles {
        first: files.first + 2,
        count: files.count - 2,
    };
    serve_loaded(
        hands, readers, &bounds, &queries, tables, changes, inputs, store, out,
    )
}

/// The same once these tables of it are loaded.
fn serve_loaded<R: Threads + Wait + Sync, I: Inputs, D: Disk, S: Sink, G: Gate>(
    hands: &Hands<'_, R, G>,
    readers: u32,
    bounds: &Bounds,
    queries: &Queries,
    tables: Tables,
    files: ChangeFiles,
    inputs: &mut I,
    store: &mut Updater<'_, D>,
    out: &mut S,
) -> Result<(), Fault>
    requires readers { AreReaders readers }
    ensures goes_on { (old : Before) (start done : Progress) (held : Holding) → IsHead start done (imported held) files.first old (I.view inputs.old) (handle_of store.old) (S.view out.old)
        → (IsCertain done.store → tables ≡ tables_in held.style held.objects)
        → GoesOn (serves bounds.now queries.now readers [] held files.first files.count) start done (result_err result) old (world (I.view inputs.new) (view_of (handle_of store.new)) (S.view out.new)) }
    ensures works { Works (λ asked. I.reads inputs.old asked inputs.new) (Among files.first files.count) (result_err result) store.old store.new }
{
    let style = match store.style() {
        Some(style) => style.copy(hands.alloc),
        None => return Err(Fault::NotImported),
    };
    let style = match style {
        Ok(style) => style,
        Err(_) => return Err(Fault::OutOfMemory),
    };
    let version = store.changes();
    match publish_first(hands.rt, hands.alloc, &style, &tables, version, readers) {
        Ok((mut publisher, askers)) => {
            let own = Asked {
                style: &style,
                bounds,
                queries,
            };
            let done = serve_shown(
                hands,
                own,
                tables,
                files,
                inputs,
                store,
                out,
                &mut publisher,
                askers,
            );
            publisher.end(hands.rt);
            done
        }
        Err(_) => Err(Fault::OutOfMemory),
    }
}
