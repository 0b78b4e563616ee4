//! `demo N STORE`: a store made and filled with a map out of nothing, and how much it holds.
ghost use Rattle.std.specs.Prelude.{◌≡◌, ◌≢◌, [], ℕ, Some};
ghost use Rattle.std.specs.Option.{option_map};
ghost use Rattle.std.specs.Result.{result_err};
ghost use Rattle.demo_map.specs.Demo.{demo_first, demo_input, demo_second};
ghost use Rattle.demo_map.specs.Style.{DEMO_STYLE, demo_bounds, demo_style};
ghost use Rattle.outside.specs.Inputs.{FilesView};
ghost use Rattle.update_flow.specs.Handle.{view_of};
ghost use Rattle.update_flow.specs.State.{Holding, State, formatted, imported};
ghost use Rattle.update_flow.specs.Updater.{handle_of};
ghost use Rattle.updater.specs.Command.{IsReadAs};
ghost use Rattle.run_promise.specs.Course.{formats, looks};
ghost use Rattle.run_promise.specs.Courses.{demo_course, fills_demo, growing, if_blank, imports_these, onward, summing};
ghost use Rattle.updater.specs.Heads.{GoesOn, IsHead, IsSoFar, Leads};
ghost use Rattle.run_promise.specs.Making.{reading_alone};
ghost use Rattle.run_promise.specs.Progress.{Progress, begun, unused};
ghost use Rattle.run_promise.specs.Runs.{GoesBy};
ghost use Rattle.updater.specs.Works.{KeepsOpen, Makes};
ghost use Rattle.run_promise.specs.World.{Before, world};
ghost use Rattle.updater.specs.commands.Demo as demo;

use crate::file_reads::StyleFile;
use crate::forms::Words;
use crate::making::{MADE_BUCKETS, wants_empty};
use crate::number::number_in;
use crate::options::{Allowed, options_of, usual_workers};
use crate::summary::summary_text;
use crate::telling::tell;
use crate::versions::{commit_change, import_change};
use crate::words::Command;
use demo_map::{
    DemoStyle, MAX_SQUARES, Squares, demo_bounds, demo_style, first_change_of, input_of,
    second_change_of,
};
use geom_workers::Hands;
use osm_base::Limits;
use outside::{Disk, Gate, Inputs, Sink};
use page_journal::format;
use run_promise::Fault;
use std::alloc::Global;
use std::thread::Threads;
use update_flow::{Updater, open};

/// The options that belong to it.
const ALLOWED: Allowed = Allowed {
    workers: true,
    readers: false,
    buckets: false,
    clear: false,
    ahead: false,
    full: false,
};

/// The form of its words.
pub fn form(words: Words<'_>) -> Option<Command<'_>>
    ensures read { IsReadAs demo.form words.entry result }
{
    let own = options_of(ALLOWED, words.options)?;
    match words.form {
        [count, store] => {
            let squares = squares_in(count.as_bytes())?;
            Some(Command::Demo {
                squares,
                store: store.as_str(),
                workers: own.workers.unwrap_or(usual_workers()),
            })
        }
        _ => None,
    }
}

/// How many squares a word tells: a number from 1 to `MAX_SQUARES` that begins with no zero.
fn squares_in(word: &[u8]) -> Option<Squares>
    ensures squares { option_map (λ squares. squares.count) result ≡ demo.squares word.now }
{
    if word.starts_with(b"0") {
        return None;
    }
    let count = number_in(word)?;
    if count < 1 || count > MAX_SQUARES {
        return None;
    }
    Some(Squares { count })
}

/// Makes a store on an empty disk, imports the map of so many squares into it, appends its two changes, and writes how much it holds
/// then.
pub fn demo<R: Threads + Sync, I: Inputs, D: Disk, S: Sink, G: Gate>(
    hands: &Hands<'_, R, G>,
    squares: Squares,
    inputs: &I,
    disk: &mut D,
    out: &mut S,
) -> Result<(), Fault>
    ensures course { GoesBy (demo_course squares.count) (begun unused 0) (result_err result)
        (world (I.view inputs.now) (D.view disk.old) (S.view out.old))
        (world (I.view inputs.now) (D.view disk.new) (S.view out.new)) }
    ensures makes { Makes (result_err result) (D.view disk.old) (D.view disk.new) }
{
    if let Err(fault) = wants_empty(disk) {
        return Err(fault);
    }
    make_demo(hands, squares, inputs, disk, out)
}

/// Makes a store on an empty disk, and fills it.
fn make_demo<R: Threads + Sync, I: Inputs, D: Disk, S: Sink, G: Gate>(
    hands: &Hands<'_, R, G>,
    squares: Squares,
    inputs: &I,
    disk: &mut D,
    out: &mut S,
) -> Result<(), Fault>
    ensures goes_on { (old : Before)
        → IsSoFar (begun unused 0) (reading_alone []) 0 old (I.view inputs.now) (D.view disk.old) (S.view out.old)
        → GoesOn (formats (looks (fills_demo squares.count))) (begun unused 0) (reading_alone []) (result_err result) old
        (world (I.view inputs.now) (D.view disk.new) (S.view out.new)) }
    ensures formatted { result_err result ≢ Some Fault.NotFormatted }
{
    if let Err(fault) = format(disk) {
        return Err(Fault::in_store(fault));
    }
    let limits = Limits::standard();
    let found = match open(hands.alloc, disk, &limits) {
        Ok(found) => found,
        Err(fault) => return Err(Fault::in_made(fault)),
    };
    let Some(opened) = found else {
        return Err(Fault::AlreadyImported);
    };
    let mut store = Updater::over(hands.alloc, disk, opened, &limits);
    let done = fill_demo(hands, squares, inputs, &mut store, out);
    let _disk = store.close();
    done
}

/// Imports the map into a store that was only made, appends its changes, and writes how much the store holds then.
fn fill_demo<R: Threads + Sync, I: Inputs, D: Disk, S: Sink, G: Gate>(
    hands: &Hands<'_, R, G>,
    squares: Squares,
    inputs: &I,
    store: &mut Updater<'_, D>,
    out: &mut S,
) -> Result<(), Fault>
    ensures goes_on { (old : Before) (start done : Progress) (state : State) → IsHead start done state 0 old (I.view inputs.now) (handle_of store.old) (S.view out.old)
        → GoesOn (if_blank (fills_demo squares.count) state) start done (result_err result) old
        (world (I.view inputs.now) (view_of (handle_of store.new)) (S.view out.new)) }
    ensures keeps { KeepsOpen (result_err result) store.old store.new }
{
    if store.imported() {
        return Err(Fault::AlreadyImported);
    }
    match import_demo(hands, squares, store, out) {
        Ok(()) => {}
        Err(fault) => return Err(fault),
    }
    match grow_demo(hands, squares, store, out) {
        Ok(()) => {}
        Err(fault) => return Err(fault),
    }
    tell_summary(hands.alloc, store, out)
}

/// Imports the map of so many squares into a store that was only made, and tells so.
fn import_demo<R: Threads + Sync, D: Disk, S: Sink, G: Gate>(
    hands: &Hands<'_, R, G>,
    squares: Squares,
    store: &mut Updater<'_, D>,
    out: &mut S,
) -> Result<(), Fault>
    ensures leads { (next : ℕ) (files : FilesView) (old : Before) (start done : Progress)
        → IsHead start done formatted next old files (handle_of store.old) (S.view out.old)
        → Leads (λ last. imports_these (demo_style, DEMO_STYLE) 1024 (demo_input squares.count) (onward last)) (result_err result) start done next old
        files (handle_of store.new) (S.view out.new) }
    ensures keeps { KeepsOpen (result_err result) store.old store.new }
{
    let own = match demo_style(hands.alloc) {
        Ok(own) => own,
        Err(_) => return Err(Fault::OutOfMemory),
    };
    let DemoStyle { style, bytes } = own;
    let style = StyleFile { style, bytes };
    let change = match input_of(hands.alloc, squares) {
        Ok(change) => change,
        Err(_) => return Err(Fault::OutOfMemory),
    };
    import_change(hands, style, MADE_BUCKETS, change, store, out)
}

/// Appends both changes of the map to a store into which it was imported, and tells each.
fn grow_demo<R: Threads + Sync, D: Disk, S: Sink, G: Gate>(
    hands: &Hands<'_, R, G>,
    squares: Squares,
    store: &mut Updater<'_, D>,
    out: &mut S,
) -> Result<(), Fault>
    ensures leads { (next : ℕ) (files : FilesView) (old : Before) (start done : Progress) (held : Holding)
        → IsHead start done (imported held) next old files (handle_of store.old) (S.view out.old)
        → Leads (λ last. onward (growing demo_bounds (demo_first squares.count) (growing demo_bounds (demo_second squares.count) last)) held)
        (result_err result) start done next old files (handle_of store.new) (S.view out.new) }
    ensures keeps { KeepsOpen (result_err result) store.old store.new }
{
    let bounds = match demo_bounds(hands.alloc) {
        Ok(bounds) => bounds,
        Err(_) => return Err(Fault::OutOfMemory),
    };
    let first = match first_change_of(hands.alloc, squares) {
        Ok(change) => change,
        Err(_) => return Err(Fault::OutOfMemory),
    };
    let _delta = match commit_change(hands, &bounds, first, store, out) {
        Ok(delta) => delta,
        Err(fault) => return Err(fault),
    };
    let second = match second_change_of(hands.alloc, squares) {
        Ok(change) => change,
        Err(_) => return Err(Fault::OutOfMemory),
    };
    let _delta = match commit_change(hands, &bounds, second, store, out) {
        Ok(delta) => delta,
        Err(fault) => return Err(fault),
    };
    Ok(())
}

/// Writes how much a store holds.
fn tell_summary<D: Disk, S: Sink>(
    alloc: Global,
    store: &mut Updater<'_, D>,
    out: &mut S,
) -> Result<(), Fault>
    ensures goes_on { (old : Before) (files : FilesView) (start done : Progress) (held : Holding) (next : ℕ)
        → IsHead start done (imported held) next old files (handle_of store.old) (S.view out.old)
        → GoesOn (onward summing held) start done (result_err result) old (world files (view_of (handle_of store.new)) (S.view out.new)) }
    ensures keeps { KeepsOpen (result_err result) store.old store.new }
{
    let tables = match store.load_tables() {
        Ok(tables) => tables,
        Err(fault) => return Err(Fault::in_flow(fault)),
    };
    let due = match store.due() {
        Ok(due) => due,
        Err(fault) => return Err(Fault::in_flow(fault)),
    };
    let text = match store.style() {
        Some(style) => summary_text(alloc, style, &tables, &due),
        None => return Err(Fault::NotImported),
    };
    match text {
        Ok(text) => tell(out, &text),
        Err(_) => Err(Fault::OutOfMemory),
    }
}
