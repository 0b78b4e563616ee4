//! Whole runs of the program, as tables say them.
//!
//! `words.txt` has words and what they ask for. `runs.txt` has runs with their words, files, disk and failing
//! calls, and with what is wanted: the status, the line of the fault, the path of the store, all bytes that
//! are printed, and those that the disk holds then. `stores.txt` has runs one after another over one store, whose
//! files may hold the texts of `texts.txt`. Each run is done by `run` of `updater` over files, a disk and an output
//! in memory, and the name is printed, up to the first that differs. An append that says nothing of how many files are read ahead is
//! run three times more, with none, one and eight: all that is wanted of it and the bytes of the disk are to be the same. A run may
//! also be spoiled again and again, by each of its calls or by each page of its disk: see `Sweep` of `example_runs`, which reads the rows.
#![tactic(auto)]

mod running;
mod sweeping;

use example_runs::{Example, Texts, example_of};
use example_table::{is_told, named_row, refuse_row, sides_of};
use running::difference;
use std::fs::{self, Files};
use std::io;
use std::process::ExitCode;
use std::sync::Wait;
use std::thread::Threads;

fn main(rt: HostRuntime) -> io::Result<ExitCode> {
    let words = fs::read_to_string(&rt, "words.txt")?;
    if !words_pass(&rt, words.as_str())? {
        return Ok(ExitCode::from(1));
    }
    let runs = fs::read_to_string(&rt, "runs.txt")?;
    if !runs_pass(&rt, &Texts::new(rt.alloc()), runs.as_str())? {
        return Ok(ExitCode::from(1));
    }
    let passed = stores_pass(&rt)?;
    Ok(ExitCode::from(if passed { 0 } else { 1 }))
}

/// Whether the runs over stores end as their table says.
fn stores_pass<R: Threads + Wait + Sync + Files + Print + Eprint + AllocGlobal>(
    rt: &R,
) -> io::Result<bool> {
    let named = fs::read_to_string(rt, "texts.txt")?;
    let table = fs::read_to_string(rt, "stores.txt")?;
    match Texts::of(rt.alloc(), named.as_str())? {
        Some(texts) => runs_pass(rt, &texts, table.as_str()),
        None => is_refused(rt, "texts.txt"),
    }
}

/// Whether the words of each row ask for what it says.
fn words_pass<R: Threads + Wait + Sync + Print + Eprint + AllocGlobal>(
    rt: &R,
    table: &str,
) -> io::Result<bool> {
    for line in table.lines() {
        if named_row(line).is_none() {
            continue;
        }
        let passed = match sides_of(line) {
            Some((given, wanted)) => match example_of(rt.alloc(), given, wanted)? {
                Some(example) => passes(rt, given, example)?,
                None => is_refused(rt, line)?,
            },
            None => is_refused(rt, line)?,
        };
        if !passed {
            return Ok(false);
        }
    }
    Ok(true)
}

/// Whether each run of the table ends as it says.
fn runs_pass<R: Threads + Wait + Sync + Print + Eprint + AllocGlobal>(
    rt: &R,
    texts: &Texts,
    table: &str,
) -> io::Result<bool> {
    let mut name = String::new(rt.alloc());
    let mut example = Example::new(rt.alloc())?;
    for line in table.lines() {
        let Some((word, text)) = named_row(line) else {
            continue;
        };
        if word == "run" {
            if !passes(rt, name.as_str(), example)? {
                return Ok(false);
            }
            name = String::from_str(rt.alloc(), text)?;
            example = Example::new(rt.alloc())?;
        } else if !example.set(rt.alloc(), texts, word, text)? {
            return is_refused(rt, line);
        }
    }
    passes(rt, name.as_str(), example)
}

/// Does the run of an example that has a name, and tells how it went.
fn passes<R: Threads + Wait + Sync + Print + Eprint + AllocGlobal>(
    rt: &R,
    name: &str,
    example: Example,
) -> io::Result<bool> {
    if name.is_empty() {
        return Ok(true);
    }
    is_told(rt, name, difference(rt, rt.alloc(), example)?)
}

/// Tells that a line is no row, and passes no further.
fn is_refused<R: Eprint>(rt: &R, line: &str) -> io::Result<bool> {
    refuse_row(rt, line)?;
    Ok(false)
}
