//! Change files appended, told and shown to readers, one after another.
ghost use Rattle.std.specs.Prelude.{◌≡◌, ◌+◌, [], IfOk, OnOk};
ghost use Rattle.std.specs.Result.{result_err};
ghost use Rattle.std.specs.String.{string_bytes};
ghost use Rattle.osm_base.specs.map.Spots.{changed_all};
ghost use Rattle.table_versions.specs.Versions.{tables_of, version_of};
ghost use Rattle.reader_rounds.specs.Asking.{AreAsking, Asks, begin_of, count_of};
ghost use Rattle.update_flow.specs.Handle.{changes_of, view_of};
ghost use Rattle.update_flow.specs.State.{Holding, imported};
ghost use Rattle.update_flow.specs.Updater.{handle_of};
ghost use Rattle.run_promise.specs.Comes.{IsCertain};
ghost use Rattle.run_promise.specs.Courses.{serves};
ghost use Rattle.updater.specs.Heads.{GoesOn, IsHead};
ghost use Rattle.run_promise.specs.Progress.{Progress};
ghost use Rattle.updater.specs.FileReads.{Among};
ghost use Rattle.updater.specs.Serving.{AreShown, IsServed, KeepsFront, Publishes, Shows, ShowsFront, with_delta};
ghost use Rattle.updater.specs.Works.{Works, WorksOn};
ghost use Rattle.run_promise.specs.World.{Before, world};

use crate::blocks::blocks_text;
use crate::telling::tell;
use crate::versions::commit_file;
use change_pipe::ChangeFiles;
use geom_workers::Hands;
use map_query::Queries;
use osm_base::{Delta, OutOfMemory, RowChange, Tables, TryCopy};
use outside::{Disk, Gate, GatePlace, Inputs, Sink};
use reader_rounds::Askers;
use run_promise::Fault;
use std::alloc::Global;
use std::sync::Wait;
use std::thread::Threads;
use style_read::Style;
use table_versions::Publisher;
use tile_cover::Bounds;
use update_flow::Updater;

/// What readers ask of each version: the list of queries over tables of this style, while changes are made under these
/// boundaries.
#[derive(Clone, Copy)]
pub struct Asked<'a> {
    pub style: &'a Style,
    pub bounds: &'a Bounds,
    pub queries: &'a Queries,
}

/// Appends these change files, and shows readers each version, while they ask the list once for each file. When all are
/// shown they ask once more, and what they answered is told.
pub fn serve_shown<R: Threads + Wait + Sync, I: Inputs, D: Disk, S: Sink, G: Gate>(
    hands: &Hands<'_, R, G>,
    own: Asked<'_>,
    tables: Tables,
    files: ChangeFiles,
    inputs: &mut I,
    store: &mut Updater<'_, D>,
    out: &mut S,
    publisher: &mut Publisher,
    askers: Askers,
) -> Result<(), Fault>
    requires asking { AreAsking own.style.now (begin_of publisher.old.front) own.queries.now 0 askers }
    requires shown { ShowsFront (changes_of (handle_of store.old)) tables publisher.old.front }
    ensures goes_on { (old : Before) (start done : Progress) (held : Holding) → IsHead start done (imported held) files.first old (I.view inputs.old) (handle_of store.old) (S.view out.old)
        → held.style ≡ own.entry.style.now → (IsCertain done.store → AreShown own.entry.style.now publisher.old.front [] held)
        → GoesOn (serves own.entry.bounds.now own.entry.queries.now (count_of askers) [] held files.first files.count) start done (result_err result) old (world (I.view inputs.new) (view_of (handle_of store.new)) (S.view out.new)) }
    ensures works { Works (λ asked. I.reads inputs.old asked inputs.new) (Among files.first files.count) (result_err result) store.old store.new }
{
    let mut tables = tables;
    let mut askers = askers;
    match show_files(
        hands,
        own,
        files,
        inputs,
        store,
        out,
        publisher,
        &mut tables,
        &mut askers,
    ) {
        Ok(()) => {}
        Err(fault) => return Err(fault),
    }
    let version = store.changes();
    match served_text(hands, own, askers, publisher, &tables, version, files.count) {
        Ok(text) => tell(out, text.as_bytes()),
        Err(_) => Err(Fault::OutOfMemory),
    }
}

/// Appends the files and shows the versions in this thread, while readers ask in others.
fn show_files<R: Threads + Wait + Sync, I: Inputs, D: Disk, S: Sink, G: Gate>(
    hands: &Hands<'_, R, G>,
    own: Asked<'_>,
    files: ChangeFiles,
    inputs: &mut I,
    store: &mut Updater<'_, D>,
    out: &mut S,
    publisher: &mut Publisher,
    tables: &mut Tables,
    askers: &mut Askers,
) -> Result<(), Fault>
    requires shown { ShowsFront (changes_of (handle_of store.old)) tables.old publisher.old.front }
    ensures serves { Shows own.entry.bounds.now files.first files.count (result_err result) (I.view inputs.old) (I.view inputs.new) store.old store.new (S.view out.old) (S.view out.new) publisher.old.front publisher.new.front }
    ensures works { Works (λ asked. I.reads inputs.old asked inputs.new) (Among files.first files.count) (result_err result) store.old store.new }
    ensures front { KeepsFront result (changes_of (handle_of store.new)) tables.new publisher.old.front publisher.new.front }
    ensures asks { Asks own.entry.queries.now files.count askers.old askers.new }
{
    let bounds = own.bounds;
    askers.ask_beside(
        hands.rt,
        hands.alloc,
        own.queries,
        files.count,
        hands.gate,
        &mut || -> Result<(), Fault>
            requires { ShowsFront (changes_of (handle_of store.now)) tables.now publisher.now.front }
        { publish_files(hands, bounds, files, inputs, store, out, publisher, tables) },
    )
}

/// Appends these change files, tells and shows each. The gate is passed before each, with its number from 1.
fn publish_files<R: Threads + Wait + Sync, I: Inputs, D: Disk, S: Sink, G: Gate>(
    hands: &Hands<'_, R, G>,
    bounds: &Bounds,
    files: ChangeFiles,
    inputs: &mut I,
    store: &mut Updater<'_, D>,
    out: &mut S,
    publisher: &mut Publisher,
    tables: &mut Tables,
) -> Result<(), Fault>
    requires shown { ShowsFront (changes_of (handle_of store.old)) tables.old publisher.old.front }
    ensures serves { Shows bounds.now files.first files.count (result_err result) (I.view inputs.old) (I.view inputs.new) store.old store.new (S.view out.old) (S.view out.new) publisher.old.front publisher.new.front }
    ensures works { Works (λ asked. I.reads inputs.old asked inputs.new) (Among files.first files.count) (result_err result) store.old store.new }
    ensures front { KeepsFront result (changes_of (handle_of store.new)) tables.new publisher.old.front publisher.new.front }
{
    let end = files.first + files.count;
    let mut file = files.first;
    while file < end {
        hands
            .gate
            .pass(GatePlace::BeforeChange, u64::from(file - files.first + 1));
        match publish_file(hands, bounds, file, inputs, store, out, publisher, tables) {
            Ok(()) => {}
            Err(fault) => return Err(fault),
        }
        file += 1;
    }
    Ok(())
}

/// Appends a change file, tells it, and shows the version that it makes. The gate is passed then.
fn publish_file<R: Threads + Wait + Sync, I: Inputs, D: Disk, S: Sink, G: Gate>(
    hands: &Hands<'_, R, G>,
    bounds: &Bounds,
    file: u32,
    inputs: &mut I,
    store: &mut Updater<'_, D>,
    out: &mut S,
    publisher: &mut Publisher,
    tables: &mut Tables,
) -> Result<(), Fault>
    requires shown { ShowsFront (changes_of (handle_of store.old)) tables.old publisher.old.front }
    ensures publishes { (old : Before) (start done : Progress) (held : Holding) → IsHead start done (imported held) file old (I.view inputs.old) (handle_of store.old) (S.view out.old)
        → Publishes bounds.now file (result_err result) start done held old (I.view inputs.new) (handle_of store.new) (S.view out.new) publisher.old.front publisher.new.front }
    ensures works { WorksOn (λ asked. I.reads inputs.old asked inputs.new) file (result_err result) store.old store.new }
    ensures front { KeepsFront result (changes_of (handle_of store.new)) tables.new publisher.old.front publisher.new.front }
{
    let delta = match commit_file(hands, bounds, file, inputs, store, out) {
        Ok(delta) => delta,
        Err(fault) => return Err(fault),
    };
    let version = delta.version;
    match show_delta(hands.rt, hands.alloc, publisher, tables, delta) {
        Ok(()) => {}
        Err(_) => return Err(Fault::OutOfMemory),
    }
    hands.gate.pass(GatePlace::Published, version);
    Ok(())
}

/// Shows readers the version that a delta makes, and keeps its tables. After `Err` it is not shown.
fn show_delta<R: Wait>(
    rt: &R,
    alloc: Global,
    publisher: &mut Publisher,
    tables: &mut Tables,
    delta: Delta,
) -> Result<(), OutOfMemory>
    requires version { delta.version ≡ version_of publisher.old.front + 1 }
    requires tables { tables.old ≡ tables_of publisher.old.front }
    ensures shown { OnOk result (publisher.new.front ≡ with_delta publisher.old.front delta) }
    ensures tables { OnOk result (tables.new ≡ tables_of publisher.new.front) }
    ensures begin { begin_of publisher.new.front ≡ begin_of publisher.old.front }
{
    apply_all(alloc, tables, delta.changes.as_slice())?;
    match publisher.publish(rt, delta) {
        Ok(()) => Ok(()),
        Err(_) => Err(OutOfMemory),
    }
}

/// Changes tables.
fn apply_all(alloc: Global, tables: &mut Tables, changes: &[RowChange]) -> Result<(), OutOfMemory>
    ensures changed { OnOk result (tables.new ≡ changed_all tables.old changes.now) }
{
    for change in changes {
        tables.apply(change.copy(alloc)?)?;
    }
    Ok(())
}

/// What readers answered, as text, once each has asked for the last time.
fn served_text<R, G: Gate>(
    hands: &Hands<'_, R, G>,
    own: Asked<'_>,
    askers: Askers,
    publisher: &mut Publisher,
    tables: &Tables,
    version: u64,
    rounds: u32,
) -> Result<String, OutOfMemory>
    requires asking { AreAsking own.style.now (begin_of publisher.old.front) own.queries.now rounds askers }
    requires shown { ShowsFront version tables.now publisher.old.front }
    ensures text { IfOk result (λ text. IsServed own.entry.style.now publisher.old.front own.entry.queries.now rounds (count_of askers) (string_bytes text)) }
{
    let alloc = hands.alloc;
    let gate = hands.gate;
    let blocks = askers.finish(
        alloc,
        publisher,
        own.style,
        tables,
        version,
        own.queries,
        rounds,
        gate,
    )?;
    blocks_text(alloc, blocks.as_slice())
}
