//! Versions of an open store: a file is imported or appended in one commit, and that is told.
ghost use Rattle.std.specs.Prelude.{◌≡◌, ◌≤◌, ◌+◌, ℕ, List, IfErr, IfOk, OnErr, OnOk, length};
ghost use Rattle.std.specs.Io.KnownBytes.{Appends};
ghost use Rattle.std.specs.Result.{result_err};
ghost use Rattle.outside.specs.Bytes.{AppendsPrefix};
ghost use Rattle.osm_base.specs.declared.bounds.limits.TheConstants.{MAX_ENTRIES};
ghost use Rattle.outside.specs.Causes.{HasCause};
ghost use Rattle.outside.specs.Inputs.{FilesView};
ghost use Rattle.page_journal.specs.Crash.{IsAtRest};
ghost use Rattle.update_flow.specs.Handle.{IsOpen, changes_of, view_of};
ghost use Rattle.update_flow.specs.State.{Holding, formatted, imported};
ghost use Rattle.update_flow.specs.Updater.{handle_of};
ghost use Rattle.run_promise.specs.CommandOf.{AreBuckets};
ghost use Rattle.run_promise.specs.Courses.{appends, appends_one, appends_these, imports, imports_these, onward, version_line};
ghost use Rattle.updater.specs.Heads.{IsHead, Leads};
ghost use Rattle.updater.specs.Versions.{AppendsHere};
ghost use Rattle.run_promise.specs.Locality.{AppendsThere};
ghost use Rattle.run_promise.specs.Progress.{Progress};
ghost use Rattle.run_promise.specs.Files.{IsChange};
ghost use Rattle.updater.specs.Ahead.{TakesChanges, TakesOrStops};
ghost use Rattle.updater.specs.FileReads.{Among, IsRead};
ghost use Rattle.updater.specs.Serving.{LeadsBy};
ghost use Rattle.updater.specs.Works.{KeepsOpen, Works, WorksOn};
ghost use Rattle.run_promise.specs.World.{Before};

use crate::file_reads::{StyleFile, read_change};
use crate::telling::tell;
use change_pipe::ChangeFiles;
use geom_workers::Hands;
use object_fold::Change;
use osm_base::Delta;
use outside::{Disk, Gate, GatePlace, Inputs, Sink};
use run_promise::Fault;
use std::thread::Threads;
use tile_cover::Bounds;
use update_flow::Updater;

/// Tells the number of changes. After `Err` the output has taken some front of the line.
pub fn tell_version<S: Sink>(out: &mut S, changes: u64) -> Result<(), Fault>
    ensures ok { OnOk result (Appends (S.view out.old).taken (S.view out.new).taken (version_line changes)) }
    ensures err { OnErr result (AppendsPrefix (S.view out.old).taken (S.view out.new).taken (version_line changes)) }
    ensures alone { IfErr result (λ fault. fault ≡ Fault.WriteFault) }
    ensures cause { HasCause (S.view out.old).faults (S.view out.new).faults result }
{
    let mut buffer = itoa::Buffer::new();
    if let Err(fault) = tell(out, b"version ") {
        return Err(fault);
    }
    if let Err(fault) = tell(out, buffer.format(changes).as_bytes()) {
        return Err(fault);
    }
    tell(out, b"\n")
}

/// Imports entries into a store that was only made, under a style, and tells so.
pub fn import_change<R: Threads + Sync, D: Disk, S: Sink, G: Gate>(
    hands: &Hands<'_, R, G>,
    style: StyleFile,
    buckets: u64,
    change: Change,
    store: &mut Updater<'_, D>,
    out: &mut S,
) -> Result<(), Fault>
    requires buckets { AreBuckets buckets }
    requires few { length change ≤ MAX_ENTRIES }
    ensures leads { (next : ℕ) (files : FilesView) (old : Before) (start done : Progress)
        → IsHead start done formatted next old files (handle_of store.old) (S.view out.old)
        → Leads (λ last. imports_these (style.style, style.bytes) buckets change (onward last)) (result_err result) start done next old
        files (handle_of store.new) (S.view out.new) }
    ensures keeps { KeepsOpen (result_err result) store.old store.new }
{
    let StyleFile { style, bytes } = style;
    if let Err(fault) = store.import(hands, bytes.as_slice(), style, change, buckets) {
        return Err(Fault::in_flow(fault));
    }
    tell_version(out, 0)
}

/// Reads a file, and does so with its entries.
pub fn import_file<R: Threads + Sync, I: Inputs, D: Disk, S: Sink, G: Gate>(
    hands: &Hands<'_, R, G>,
    style: StyleFile,
    buckets: u64,
    file: u32,
    inputs: &mut I,
    store: &mut Updater<'_, D>,
    out: &mut S,
) -> Result<(), Fault>
    requires buckets { AreBuckets buckets }
    ensures leads { (old : Before) (start done : Progress) → IsHead start done formatted file old (I.view inputs.old) (handle_of store.old) (S.view out.old)
        → Leads (λ last. imports (style.style, style.bytes) buckets file (onward last)) (result_err result) start done (file + 1) old
        (I.view inputs.new) (handle_of store.new) (S.view out.new) }
    ensures works { WorksOn (λ asked. I.reads inputs.old asked inputs.new) file (result_err result) store.old store.new }
{
    let change = match read_change(hands, inputs, file) {
        Ok(change) => change,
        Err(fault) => return Err(fault),
    };
    import_change(hands, style, buckets, change, store, out)
}

/// Appends the entries of a change to a store that was imported, and tells so. Answers how the tables differ from then on.
pub fn commit_change<R: Threads + Sync, D: Disk, S: Sink, G: Gate>(
    hands: &Hands<'_, R, G>,
    bounds: &Bounds,
    change: Change,
    store: &mut Updater<'_, D>,
    out: &mut S,
) -> Result<Delta, Fault>
    requires few { length change ≤ MAX_ENTRIES }
    ensures grows { (next : ℕ) (files : FilesView) (old : Before) (start done : Progress) (held : Holding)
        → IsHead start done (imported held) next old files (handle_of store.old) (S.view out.old)
        → Leads (λ last. appends_these bounds.now held change (onward last)) (result_err result) start done next old
        files (handle_of store.new) (S.view out.new) }

    // Where a file was read as this change.
    ensures leads { (file : ℕ) (files read : FilesView) (old : Before) (start done : Progress) (held : Holding) → IsRead (IsChange file) file change files read
        → IsHead start done (imported held) file old files (handle_of store.old) (S.view out.old)
        → LeadsBy bounds.now file result start done held old read (handle_of store.new) (S.view out.new) }
    ensures local { OnOk result ((file : ℕ) (files read : FilesView) (held : Holding) (pages : List (List ℕ)) → IsRead (IsChange file) file change files read
        → IsOpen (imported held) (handle_of store.old) → IsAtRest pages (view_of (handle_of store.old))
        → AppendsHere bounds.now held pages file files read (handle_of store.old) (handle_of store.new)) }
    ensures version { IfOk result (λ delta. delta.version ≡ changes_of (handle_of store.old) + 1) }
    ensures changes { OnOk result (changes_of (handle_of store.new) ≡ changes_of (handle_of store.old) + 1) }
    ensures keeps { KeepsOpen (result_err result) store.old store.new }
    ensures takes { TakesChanges (handle_of store.old) → TakesOrStops (result_err result) (handle_of store.new) }
{
    let delta = match store.append_one(hands, bounds, change) {
        Ok(delta) => delta,
        Err(fault) => return Err(Fault::in_flow(fault)),
    };
    match tell_version(out, delta.version) {
        Ok(()) => Ok(delta),
        Err(fault) => Err(fault),
    }
}

/// Reads a change file, and does so with its entries.
pub fn commit_file<R: Threads + Sync, I: Inputs, D: Disk, S: Sink, G: Gate>(
    hands: &Hands<'_, R, G>,
    bounds: &Bounds,
    file: u32,
    inputs: &mut I,
    store: &mut Updater<'_, D>,
    out: &mut S,
) -> Result<Delta, Fault>
    ensures leads { (old : Before) (start done : Progress) (held : Holding) → IsHead start done (imported held) file old (I.view inputs.old) (handle_of store.old) (S.view out.old)
        → LeadsBy bounds.now file result start done held old (I.view inputs.new) (handle_of store.new) (S.view out.new) }
    ensures local { OnOk result ((held : Holding) (pages : List (List ℕ)) → IsOpen (imported held) (handle_of store.old) → IsAtRest pages (view_of (handle_of store.old))
        → AppendsHere bounds.now held pages file (I.view inputs.old) (I.view inputs.new) (handle_of store.old) (handle_of store.new)) }
    ensures version { IfOk result (λ delta. delta.version ≡ changes_of (handle_of store.old) + 1) }
    ensures changes { OnOk result (changes_of (handle_of store.new) ≡ changes_of (handle_of store.old) + 1) }
    ensures works { WorksOn (λ asked. I.reads inputs.old asked inputs.new) file (result_err result) store.old store.new }
{
    let change = match read_change(hands, inputs, file) {
        Ok(change) => change,
        Err(fault) => return Err(fault),
    };
    commit_change(hands, bounds, change, store, out)
}

/// Appends a change file to a store that was imported, and tells so.
pub fn append_file<R: Threads + Sync, I: Inputs, D: Disk, S: Sink, G: Gate>(
    hands: &Hands<'_, R, G>,
    bounds: &Bounds,
    file: u32,
    inputs: &mut I,
    store: &mut Updater<'_, D>,
    out: &mut S,
) -> Result<(), Fault>
    ensures leads { (old : Before) (start done : Progress) (held : Holding) → IsHead start done (imported held) file old (I.view inputs.old) (handle_of store.old) (S.view out.old)
        → Leads (λ last. appends_one bounds.now held file (onward last)) (result_err result) start done (file + 1) old
        (I.view inputs.new) (handle_of store.new) (S.view out.new) }
    ensures local { OnOk result ((held : Holding) (pages : List (List ℕ)) → IsOpen (imported held) (handle_of store.old) → IsAtRest pages (view_of (handle_of store.old))
        → AppendsHere bounds.now held pages file (I.view inputs.old) (I.view inputs.new) (handle_of store.old) (handle_of store.new)) }
    ensures works { WorksOn (λ asked. I.reads inputs.old asked inputs.new) file (result_err result) store.old store.new }
{
    let _delta = match commit_file(hands, bounds, file, inputs, store, out) {
        Ok(delta) => delta,
        Err(fault) => return Err(fault),
    };
    Ok(())
}

/// Appends these change files, one after another. The gate is passed before each, with its number from 1.
pub fn append_files<R: Threads + Sync, I: Inputs, D: Disk, S: Sink, G: Gate>(
    hands: &Hands<'_, R, G>,
    bounds: &Bounds,
    files: ChangeFiles,
    inputs: &mut I,
    store: &mut Updater<'_, D>,
    out: &mut S,
) -> Result<(), Fault>
    ensures leads { (old : Before) (start done : Progress) (held : Holding) → IsHead start done (imported held) files.first old (I.view inputs.old) (handle_of store.old) (S.view out.old)
        → Leads (λ last. appends bounds.now held files.first files.count (onward last)) (result_err result) start done (files.first + files.count) old
        (I.view inputs.new) (handle_of store.new) (S.view out.new) }
    ensures local { OnOk result ((held : Holding) (pages : List (List ℕ)) → IsOpen (imported held) (handle_of store.old) → IsAtRest pages (view_of (handle_of store.old))
        → AppendsThere bounds.now held pages files.first files.count (I.view inputs.old) (view_of (handle_of store.old)).reads (view_of (handle_of store.new)).reads) }
    ensures works { Works (λ asked. I.reads inputs.old asked inputs.new) (Among files.first files.count) (result_err result) store.old store.new }
{
    let end = files.first + files.count;
    let mut file = files.first;
    while file < end {
        hands
            .gate
            .pass(GatePlace::BeforeChange, u64::from(file - files.first + 1));
        match append_file(hands, bounds, file, inputs, store, out) {
            Ok(()) => {}
            Err(fault) => return Err(fault),
        }
        file += 1;
    }
    Ok(())
}
