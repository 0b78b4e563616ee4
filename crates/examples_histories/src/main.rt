//! Runs random histories of a small map through stores, single steps of stores and openings of disks, and prints the name of each row up to
//! the first that differs.
//!
//! After each change of a history the tables of the store are those of a fresh import of all objects, the delta leads to them, and the tiles
//! that are due are those that a row that differs meets. The heads of `histories.txt`, `steps.txt` and `openings.txt` say how the rows are
//! written.
#![tactic(auto)]

mod bounded;
mod calling;
mod counted;
mod crashed;
mod deeds;
mod dice;
mod differing;
mod end;
mod followed;
mod history;
mod migrated;
mod opening;
mod row;
mod setting;
mod step;
mod stores;
mod version;
mod world;

use example_table::{is_told, named_row, refuse_row};
use row::{Row, line_row};
use setting::{Rules, rules_of_all};
use std::fs::{self, Files};
use std::io;
use std::process::ExitCode;
use std::thread::Threads;
use step::answer_of;

fn main(rt: HostRuntime) -> io::Result<ExitCode> {
    let rules = rules_of_all(rt.alloc())?;
    tables_pass(&rt, &rules, &["histories.txt", "steps.txt", "openings.txt"])
}

/// Takes the examples of these tables, up to the first that differs.
fn tables_pass<R: Threads + Sync + Files + Print + Eprint + AllocGlobal>(
    rt: &R,
    rules: &Rules,
    tables: &[&str],
) -> io::Result<ExitCode> {
    for name in tables {
        if !passes_all(rt, rules, name)? {
            return Ok(ExitCode::from(1));
        }
    }
    Ok(ExitCode::from(0))
}

/// Takes the examples of a table up to the first that differs. True: none does.
fn passes_all<R: Threads + Sync + Files + Print + Eprint + AllocGlobal>(
    rt: &R,
    rules: &Rules,
    name: &str,
) -> io::Result<bool> {
    let table = fs::read_to_string(rt, name)?;
    for line in table.lines() {
        if named_row(line).is_some() && !passes(rt, rules, name, line)? {
            return Ok(false);
        }
    }
    Ok(true)
}

/// Takes the example of a line of a table, and tells of it. True: the next one may run.
fn passes<R: Threads + Sync + Files + Print + Eprint + AllocGlobal>(
    rt: &R,
    rules: &Rules,
    table: &str,
    line: &str,
) -> io::Result<bool> {
    match line_row(table, line) {
        Some(row) => differs_not(rt, rules, row),
        None => {
            refuse_row(rt, line)?;
            Ok(false)
        }
    }
}

/// Takes an example, and tells of it. True: the next one may run.
fn differs_not<R: Threads + Sync + Files + Print + Eprint + AllocGlobal>(
    rt: &R,
    rules: &Rules,
    row: Row<'_>,
) -> io::Result<bool> {
    let answer = answer_of(rt, rules, row.kind, row.given)?;
    if answer.as_str() == row.wanted {
        is_told(rt, row.name, None)
    } else {
        is_told(rt, row.name, Some(answer))
    }
}
