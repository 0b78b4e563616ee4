//! Runs each example of the tables of disks and of stores and prints its name, up to the first that differs.
//!
//! An example is a disk in memory and deeds on it, one after another, each with the answer that it has to
//! give. `data/stores.txt` says how they are written.
#![tactic(auto)]

mod crashes;
mod deeds;
mod stores;

use deeds::put_answer;
use doubles::{Fails, MemDisk};
use example_table::{is_told, named_row, number_in, refuse_row, sides_of};
use osm_base::{Bytes, Ids};
use std::alloc::{AllocError, Global};
use std::fs::{self, Files};
use std::io;
use std::process::ExitCode;

/// The tables, those of the lower crate first.
const TABLES: [&str; 2] = ["disks.txt", "stores.txt"];

/// An example as far as it has come.
#[derive(Drop)]
struct Example<'t> {
    name: &'t str,
    disk: MemDisk,
}

fn main(rt: HostRuntime) -> io::Result<ExitCode> {
    for name in TABLES {
        if !passes_all(&rt, name)? {
            return Ok(ExitCode::from(1));
        }
    }
    Ok(ExitCode::from(0))
}

/// Runs the examples of the table with this name.
fn passes_all<R: Files + Print + Eprint + AllocGlobal>(rt: &R, name: &str) -> io::Result<bool> {
    let table = fs::read_to_string(rt, name)?;
    passes(rt, &table)
}

/// Runs the examples of a table. False: one differs, and that is told.
fn passes<R: Print + Eprint + AllocGlobal>(rt: &R, table: &str) -> io::Result<bool> {
    let mut example = Example {
        name: "",
        disk: empty(rt.alloc(), Ids::new(rt.alloc()), 0),
    };
    takes_all(rt, &mut example, table)
}

/// Takes the lines of a table one after another, up to one that differs.
fn takes_all<'t, R: Print + Eprint + AllocGlobal>(
    rt: &R,
    example: &mut Example<'t>,
    table: &'t str,
) -> io::Result<bool> {
    for line in table.lines() {
        if let Some((word, text)) = named_row(line) {
            if !takes(rt, example, line, word, text)? {
                return Ok(false);
            }
        }
    }
    is_told(rt, example.name, None)
}

/// Does the deed of a line, or begins the next example.
fn takes<'t, R: Print + Eprint + AllocGlobal>(
    rt: &R,
    example: &mut Example<'t>,
    line: &str,
    word: &str,
    text: &'t str,
) -> io::Result<bool> {
    if word != "store" {
        return does(rt, example, line, word, text);
    }
    if !example.name.is_empty() && !is_told(rt, example.name, None)? {
        return Ok(false);
    }
    begin(rt.alloc(), example, text)?;
    Ok(true)
}

/// Does the deed of a line. True: it answers what is wanted.
fn does<R: Print + Eprint + AllocGlobal>(
    rt: &R,
    example: &mut Example<'_>,
    line: &str,
    word: &str,
    text: &str,
) -> io::Result<bool> {
    let (deed, wanted) = sides_of(text).unwrap_or((text, "ok"));
    let mut answer = String::new(rt.alloc());
    let is_deed = put_answer(rt.alloc(), &mut example.disk, word, deed, &mut answer)?;
    if is_deed && answer.as_str() == wanted {
        return Ok(true);
    }
    tell(rt, example.name, line, is_deed, answer.as_str())
}

/// Tells what a line answers otherwise, or that it has no deed.
fn tell<R: Eprint>(
    rt: &R,
    name: &str,
    line: &str,
    is_deed: bool,
    answer: &str,
) -> io::Result<bool> {
    if is_deed {
        eprintln!(rt; "{name}: {line}: {answer}")?;
    } else {
        refuse_row(rt, line)?;
    }
    Ok(false)
}

/// Begins an example with an empty disk: behind its name stand the number from which on each call fails,
/// where it is not 0, and the numbers of other calls that fail.
fn begin<'t>(alloc: Global, example: &mut Example<'t>, text: &'t str) -> Result<(), AllocError> {
    let (name, plan) = named_row(text).unwrap_or((text, ""));
    let mut from = 0;
    let mut at = Vec::new(alloc);
    for (place, word) in plan.split_ascii_whitespace().enumerate() {
        let call = number_in(word).unwrap_or(0);
        if place == 0 {
            from = call;
        } else {
            at.push(call)?;
        }
    }
    example.name = name;
    example.disk = empty(alloc, Ids::from_vec(at), from);
    Ok(())
}

fn empty(alloc: Global, at: Ids, from: u64) -> MemDisk {
    MemDisk::new(alloc, Bytes::new(alloc), Fails::new(at, from))
}
