//! The loop of a program that runs examples.
use crate::{is_told, named_row, refuse_row, sides_of};
use std::alloc::Global;
use std::fs::{self, Files};
use std::io;
use std::process::ExitCode;

/// The examples that a program runs.
pub trait Examples {
    /// Why an example may not be run: want of memory.
    type Refusal: Drop;

    /// What comes out of an example of this kind, of what its row gives. `None`: the row is not in its form.
    fn answer_of(alloc: Global, kind: &str, given: &str) -> Result<Option<String>, Self::Refusal>;
}

/// Runs each example of these tables, rows `KIND NAME GIVEN => WANTED`, and prints its name, up to the first that
/// differs. The status is 0 where none does.
pub fn run_examples<E: Examples, R: Files + Print + Eprint + AllocGlobal>(
    rt: &R,
    tables: &[&str],
) -> io::Result<ExitCode> {
    for name in tables {
        let table = fs::read_to_string(rt, *name)?;
        if !passes_all::<E, R>(rt, &table)? {
            return Ok(ExitCode::from(1));
        }
    }
    Ok(ExitCode::from(0))
}

/// Runs the examples of a table up to the first that differs. True: none does.
fn passes_all<E: Examples, R: Print + Eprint + AllocGlobal>(
    rt: &R,
    table: &str,
) -> io::Result<bool> {
    for line in table.lines() {
        if !passes::<E, R>(rt, line)? {
            return Ok(false);
        }
    }
    Ok(true)
}

/// Runs the example of a line, if it has one, and tells of it. True: the next one may run.
fn passes<E: Examples, R: Print + Eprint + AllocGlobal>(rt: &R, line: &str) -> io::Result<bool> {
    let Some((kind, text)) = named_row(line) else {
        return Ok(true);
    };
    let Some((name, text)) = named_row(text) else {
        refuse_row(rt, line)?;
        return Ok(false);
    };
    match ran::<E>(rt.alloc(), kind, text) {
        Ok(Found::Same) => is_told(rt, name, None),
        Ok(Found::Other(text)) => is_told(rt, name, Some(text)),
        Ok(Found::NoRow) => {
            refuse_row(rt, line)?;
            Ok(false)
        }
        Err(_) => Err(io::Error::from(io::ErrorKind::OutOfMemory)),
    }
}

/// What running an example finds.
#[derive(Drop)]
enum Found {
    Same,
    Other(String),
    NoRow,
}

/// What comes out of an example, beside what is wanted.
fn ran<E: Examples>(alloc: Global, kind: &str, text: &str) -> Result<Found, E::Refusal> {
    let Some((given, wanted)) = sides_of(text) else {
        return Ok(Found::NoRow);
    };
    let Some(answer) = E::answer_of(alloc, kind, given)? else {
        return Ok(Found::NoRow);
    };
    if answer.as_str() == wanted {
        Ok(Found::Same)
    } else {
        Ok(Found::Other(answer))
    }
}
