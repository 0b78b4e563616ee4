//! `lines KEY INPUT CHANGE*`: a row for each way that has the tag and a line.
ghost use Rattle.std.specs.Prelude.{◌≡◌, IfErr, IfOk, OnOk};
ghost use Rattle.std.specs.Result.{result_err};
ghost use Rattle.std.specs.Str.{chars};
ghost use Rattle.outside.specs.Causes.{Rose};
ghost use Rattle.opl_files.specs.Reading.{IsFaultOf, ReadsAll};
ghost use Rattle.outside.specs.Reads.{ReadsNoOther};
ghost use Rattle.opl_files.specs.Stops.{Stops};
ghost use Rattle.run_promise.specs.CommandOf.{Fit, Names, lines_of};
ghost use Rattle.updater.specs.Command.{IsReadAs};
ghost use Rattle.run_promise.specs.Courses.{course_of};
ghost use Rattle.run_promise.specs.Progress.{begun, unused};
ghost use Rattle.run_promise.specs.Runs.{AsksOnly, GoesBy};
ghost use Rattle.tag_rows.specs.WayRows.{after_way, no_ways};
ghost use Rattle.run_promise.specs.World.{world};
ghost use Rattle.updater.specs.commands.Lines as lines;

use crate::file_reads::READERS;
use crate::forms::{Words, keyed};
use crate::telling::tell;
use crate::words::Command;
use opl_files::{FileFault, scan_parallel};
use osm_base::Limits;
use outside::{Disk, Inputs, Sink};
use run_promise::{Fault, Files};
use std::alloc::Global;
use std::thread::Threads;
use tag_rows::{WayImport, WayRows};

/// The form of its words.
pub fn form(words: Words<'_>) -> Option<Command<'_>>
    ensures read { IsReadAs lines.form words.entry result }
{
    let (key, files) = keyed(words)?;
    Some(Command::Lines { key, files })
}

/// Reads the files one after another, and writes the rows of the ways.
pub fn lines<R: Threads + Sync, I: Inputs, D: Disk, S: Sink>(
    rt: &R,
    alloc: Global,
    key: &str,
    files: Files,
    inputs: &mut I,
    disk: &D,
    out: &mut S,
) -> Result<(), Fault>
    requires fits { Fit files }
    ensures course { GoesBy (course_of (lines_of key.now files)) (begun unused 0) (result_err result)
        (world (I.view inputs.old) (D.view disk.now) (S.view out.old))
        (world (I.view inputs.new) (D.view disk.now) (S.view out.new)) }
    ensures asked { AsksOnly (λ asked. I.reads inputs.old asked inputs.new) (Names (lines_of key.now files)) }
{
    if files.count == 1 {
        return lines_alone(rt, alloc, key, files, inputs, disk, out);
    }
    let limits = Limits::standard();
    let mut rows = match import(rt, alloc, key, inputs, files.first, &limits) {
        Ok(rows) => rows,
        Err(fault) => return Err(Fault::in_file(files.first, fault)),
    };
    let mut file = files.first + 1;
    let end = files.first + files.count;
    while file < end {
        if let Err(fault) = change(rt, alloc, inputs, file, &limits, &mut rows) {
            return Err(Fault::in_file(file, fault));
        }
        file += 1;
    }
    let text = rows.text()?;
    tell(out, &text)
}

/// The same of one file: nobody asks who lists an object of it.
fn lines_alone<R: Threads + Sync, I: Inputs, D: Disk, S: Sink>(
    rt: &R,
    alloc: Global,
    key: &str,
    files: Files,
    inputs: &mut I,
    disk: &D,
    out: &mut S,
) -> Result<(), Fault>
    requires fits { Fit files }
    requires alone { files.count ≡ 1 }
    ensures course { GoesBy (course_of (lines_of key.now files)) (begun unused 0) (result_err result)
        (world (I.view inputs.old) (D.view disk.now) (S.view out.old))
        (world (I.view inputs.new) (D.view disk.now) (S.view out.new)) }
    ensures asked { AsksOnly (λ asked. I.reads inputs.old asked inputs.new) (Names (lines_of key.now files)) }
{
    let limits = Limits::standard();
    let ways = match read_first(rt, alloc, key, inputs, files.first, &limits) {
        Ok(ways) => ways,
        Err(fault) => return Err(Fault::in_file(files.first, fault)),
    };
    let text = ways.into_text()?;
    tell(out, &text)
}

/// Reads the first file for files of changes behind.
fn import<'k, R: Threads + Sync, I: Inputs>(
    rt: &R,
    alloc: Global,
    key: &'k str,
    inputs: &mut I,
    file: u32,
    limits: &Limits,
) -> Result<WayRows<'k>, FileFault>
    ensures ok { IfOk result (λ rows. ReadsAll after_way limits.now (no_ways (chars key.now)) rows
        ((I.view inputs.old).left file) ((I.view inputs.new).left file)) }
    ensures stopped { IfErr result (Stops (IsFaultOf limits.now ((I.view inputs.old).left file))
        (Rose (I.view inputs.old).faults (I.view inputs.new).faults)) }
    ensures read { ReadsNoOther file (λ asked. I.reads inputs.old asked inputs.new) (I.view inputs.old) (I.view inputs.new) }
{
    let ways = read_first(rt, alloc, key, inputs, file, limits)?;
    Ok(ways.into_rows()?)
}

/// Reads the first file, whose entries become objects while they are read.
fn read_first<'k, R: Threads + Sync, I: Inputs>(
    rt: &R,
    alloc: Global,
    key: &'k str,
    inputs: &mut I,
    file: u32,
    limits: &Limits,
) -> Result<WayImport<'k>, FileFault>
    ensures ok { IfOk result (λ ways. ReadsAll after_way limits.now (no_ways (chars key.now)) ways
        ((I.view inputs.old).left file) ((I.view inputs.new).left file)) }
    ensures stopped { IfErr result (Stops (IsFaultOf limits.now ((I.view inputs.old).left file))
        (Rose (I.view inputs.old).faults (I.view inputs.new).faults)) }
    ensures read { ReadsNoOther file (λ asked. I.reads inputs.old asked inputs.new) (I.view inputs.old) (I.view inputs.new) }
{
    let mut import = WayImport::new(alloc, key);
    scan_parallel(rt, alloc, inputs, file, limits, READERS, &mut import)?;
    Ok(import)
}

/// Reads a file of changes, which is applied whole at its end.
fn change<R: Threads + Sync, I: Inputs>(
    rt: &R,
    alloc: Global,
    inputs: &mut I,
    file: u32,
    limits: &Limits,
    rows: &mut WayRows,
) -> Result<(), FileFault>
    ensures ok { OnOk result (ReadsAll after_way limits.now rows.old rows.new
        ((I.view inputs.old).left file) ((I.view inputs.new).left file)) }
    ensures stopped { IfErr result (Stops (IsFaultOf limits.now ((I.view inputs.old).left file))
        (Rose (I.view inputs.old).faults (I.view inputs.new).faults)) }
    ensures read { ReadsNoOther file (λ asked. I.reads inputs.old asked inputs.new) (I.view inputs.old) (I.view inputs.new) }
{
    let mut change = rows.begin();
    scan_parallel(rt, alloc, inputs, file, limits, READERS, &mut change)?;
    rows.apply(change.into_change())?;
    Ok(())
}
