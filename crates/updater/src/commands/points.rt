//! `points KEY INPUT CHANGE*`: a row for each node that has the tag and a place.
ghost use Rattle.std.specs.Result.{result_err};
ghost use Rattle.run_promise.specs.CommandOf.{Fit, Names, points_of};
ghost use Rattle.updater.specs.Command.{IsReadAs};
ghost use Rattle.run_promise.specs.Courses.{course_of};
ghost use Rattle.run_promise.specs.Progress.{begun, unused};
ghost use Rattle.run_promise.specs.Runs.{AsksOnly, GoesBy};
ghost use Rattle.run_promise.specs.World.{world};
ghost use Rattle.updater.specs.commands.Points as points;

use crate::file_reads::READERS;
use crate::forms::{Words, keyed};
use crate::telling::tell;
use crate::words::Command;
use opl_files::scan_parallel;
use osm_base::Limits;
use outside::{Disk, Inputs, Sink};
use run_promise::{Fault, Files};
use std::alloc::Global;
use std::thread::Threads;
use tag_rows::PointRows;

/// The form of its words.
pub fn form(words: Words<'_>) -> Option<Command<'_>>
    ensures read { IsReadAs points.form words.entry result }
{
    let (key, files) = keyed(words)?;
    Some(Command::Points { key, files })
}

/// Reads the files one after another, and writes the rows of the points.
pub fn points<R: Threads + Sync, I: Inputs, D: Disk, S: Sink>(
    rt: &R,
    alloc: Global,
    key: &str,
    files: Files,
    inputs: &mut I,
    disk: &D,
    out: &mut S,
) -> Result<(), Fault>
    requires fits { Fit files }
    ensures course { GoesBy (course_of (points_of key.now files)) (begun unused 0) (result_err result)
        (world (I.view inputs.old) (D.view disk.now) (S.view out.old))
        (world (I.view inputs.new) (D.view disk.now) (S.view out.new)) }
    ensures asked { AsksOnly (λ asked. I.reads inputs.old asked inputs.new) (Names (points_of key.now files)) }
{
    let limits = Limits::standard();
    let mut rows = PointRows::new(alloc, key);
    let mut file = files.first;
    let end = files.first + files.count;
    while file < end {
        let read = scan_parallel(rt, alloc, inputs, file, &limits, READERS, &mut rows);
        if let Err(fault) = read {
            return Err(Fault::in_file(file, fault));
        }
        file += 1;
    }
    let text = rows.text()?;
    tell(out, &text)
}
