//! Runs the examples of styles, of the texts of tables, of rows and of queries, and prints the name of each up to the first
//! that differs.
//!
//! The head of each table says what its columns are, and where what is wanted comes from. What runs an example adds what
//! comes out to a text, and says whether its row is in its form; want of memory may be told as a row that is not.
#![tactic(auto)]

mod asking;
mod many;
mod notation;
mod objects;
mod reading;
mod refusal;
mod styles;
mod tables;

use example_table::{Examples, run_examples};
use refusal::Refusal;
use std::alloc::{AllocError, Global};
use std::io;
use std::process::ExitCode;

/// The tables, those of the lower crates first.
const TABLES: [&str; 5] = [
    "styles.txt",
    "tables.txt",
    "objects.txt",
    "queries.txt",
    "answers.txt",
];

fn main(rt: HostRuntime) -> io::Result<ExitCode> {
    run_examples::<OfRows, HostRuntime>(&rt, &TABLES)
}

/// The examples of styles, of texts, of rows and of queries.
struct OfRows;

impl Examples for OfRows {
    type Refusal = AllocError;

    fn answer_of(alloc: Global, kind: &str, given: &str) -> Result<Option<String>, AllocError> {
        let mut answer = String::new(alloc);
        let good = put_answer(alloc, &mut answer, kind, given)?;
        Ok(if good { Some(answer) } else { None })
    }
}

/// Adds what comes out of an example. False: the row is not in its form.
fn put_answer(
    alloc: Global,
    answer: &mut String,
    kind: &str,
    given: &str,
) -> Result<bool, AllocError> {
    match kind {
        "style" => styles::read(alloc, answer, given),
        "many" => many::read(alloc, answer, given),
        "text" => tables::text(alloc, answer, given),
        "copied" => tables::copied(alloc, answer, given),
        "number" => tables::number(alloc, answer, given),
        "rows" => objects::rows(alloc, answer, given, false),
        "rows_at_once" => objects::rows(alloc, answer, given, true),
        "selects" => objects::selected(alloc, answer, given),
        "read" => is_row(reading::read(alloc, given, answer)),
        "ask" => is_row(asking::asked(alloc, given, answer)),
        _ => Ok(false),
    }
}

/// Whether a row is in its form, by its outcome.
fn is_row(outcome: Result<(), Refusal>) -> Result<bool, AllocError> {
    match outcome {
        Ok(()) => Ok(true),
        Err(Refusal::NoRow) => Ok(false),
        Err(Refusal::OutOfMemory) => Err(AllocError),
    }
}
