//! Runs the examples of reading, and prints the name of each up to the first that differs.
//!
//! The tables in `data` go the way of the data: values (`degrees.txt`, `keys.txt`, `limits.txt`,
//! `tags.txt`), files in pieces (`cuts.txt`), all bytes of a file (`whole.txt`),
//! entries of a file (`entries.txt`), reads that fail and files over several reads (`reads.txt`), each of which is read again by
//! lots of 1 to 64 bytes and by one to four workers, objects
//! after changes (`folds.txt`), the ways that a change makes due (`ways_due.txt`), the objects whose rows
//! it may change (`pending.txt`), and single lines through both readers (`lines.txt`). The head of each says what its
//! columns are, and where what is wanted comes from. Then both readers read a million lines that are made, and the program
//! prints how many came to what.
//!
//! What runs an example adds what is found to bytes that `passes` owns, and says whether its row is in its form.
#![tactic(auto)]

mod bent;
mod both;
mod changes;
mod counts;
mod cuts;
mod cutting;
mod dice;
mod entries;
mod handing;
mod key;
mod lines;
mod lots;
mod made;
mod million;
mod pending_sets;
mod questions;
mod tags;
mod values;

use example_table::{bytes_of, named_row, sides_of};
use million::are_made_lines_fine;
use std::alloc::{AllocError, Global};
use std::process::ExitCode;
use std::thread::Threads;
use std::{fs, io};

/// The tables.
const TABLES: [&str; 12] = [
    "degrees.txt",
    "keys.txt",
    "limits.txt",
    "tags.txt",
    "cuts.txt",
    "whole.txt",
    "entries.txt",
    "reads.txt",
    "folds.txt",
    "ways_due.txt",
    "pending.txt",
    "lines.txt",
];

fn main(rt: HostRuntime) -> io::Result<ExitCode> {
    for name in TABLES {
        let table = fs::read_to_string(&rt, name)?;
        if !passes_all(&rt, name, &table)? {
            return Ok(ExitCode::from(1));
        }
    }
    let same = are_made_lines_fine(&rt, rt.alloc())?;
    Ok(ExitCode::from(if same { 0 } else { 1 }))
}

/// Runs the examples of a table up to the first that differs. True: none does.
fn passes_all<R: Print + Eprint + AllocGlobal + Threads + Sync>(
    rt: &R,
    name: &str,
    table: &str,
) -> io::Result<bool> {
    for line in table.lines() {
        if let Some((word, text)) = named_row(line) {
            if !passes(rt, name, word, text)? {
                return Ok(false);
            }
        }
    }
    Ok(true)
}

/// Runs the example of a row of a table, and prints its name or tells what was found.
fn passes<R: Print + Eprint + AllocGlobal + Threads + Sync>(
    rt: &R,
    table: &str,
    word: &str,
    text: &str,
) -> io::Result<bool> {
    let mut found = Vec::new(rt.alloc());
    let same = is_same(rt, rt.alloc(), &mut found, table, word, text)?;
    if same {
        println!(rt; "{table} {word} {text}")?;
    } else {
        tell(rt, table, word, text, &found)?;
    }
    Ok(same)
}

/// Tells on standard error what was found of a row that differs, or is not in its form.
fn tell<R: Eprint>(rt: &R, table: &str, word: &str, text: &str, found: &[u8]) -> io::Result<()> {
    match std::str::from_utf8(found) {
        Ok(found) => eprintln!(rt; "{table} {word} {text}: found {found}"),
        Err(_) => eprintln!(rt; "{table} {word} {text}: found {found:?}"),
    }
}

/// Adds what an example finds to `found`, and says whether it is what its row wants.
fn is_same<R: Threads + Sync>(
    rt: &R,
    alloc: Global,
    found: &mut Vec<u8>,
    table: &str,
    word: &str,
    text: &str,
) -> Result<bool, AllocError> {
    let Some((given, wanted)) = sides_of(text) else {
        return Ok(false);
    };
    let good = match table {
        "folds.txt" => changes::folds(alloc, found, given, wanted)?,
        _ => put_found(rt, alloc, found, table, word, given)?,
    };
    Ok(good && is_text(alloc, found, wanted)?)
}

/// Whether bytes are what a field writes.
fn is_text(alloc: Global, bytes: &[u8], field: &str) -> Result<bool, AllocError> {
    match bytes_of(alloc, field)? {
        Some(wanted) => Ok(bytes == wanted.as_slice()),
        None => Ok(false),
    }
}

/// Adds what the example of a row finds. False: the row is not in its form.
fn put_found<R: Threads + Sync>(
    rt: &R,
    alloc: Global,
    found: &mut Vec<u8>,
    table: &str,
    word: &str,
    given: &str,
) -> Result<bool, AllocError> {
    match table {
        "degrees.txt" => values::degrees(found, word),
        "keys.txt" => put_word(found, values::order(word, given)),
        "limits.txt" => put_word(found, values::limits(word, given)),
        "tags.txt" => tags::tags(alloc, found, word, given),
        "cuts.txt" => cuts::cuts(alloc, found, word, given),
        "whole.txt" => entries::whole(alloc, found, given),
        "entries.txt" => entries::within(rt, alloc, found, given),
        "reads.txt" => entries::reads(rt, alloc, found, word, given),
        "ways_due.txt" => changes::ways(alloc, found, given),
        "pending.txt" => pending_sets::sets(alloc, found, given),
        "lines.txt" => lines::lines(alloc, found, given),
        _ => Ok(false),
    }
}

/// Adds a word, where there is one.
fn put_word(found: &mut Vec<u8>, word: Option<&str>) -> Result<bool, AllocError> {
    match word {
        Some(word) => {
            found.extend_from_slice(word.as_bytes())?;
            Ok(true)
        }
        None => Ok(false),
    }
}
