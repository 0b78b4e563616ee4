//! Runs the examples of tickets, workers and files that are read ahead, and prints the name of each up to the first that differs.
//!
//! The head of `threads.txt` says what its columns are, and where what is wanted comes from.
#![tactic(auto)]

mod ahead;
mod beside;
mod books;
mod built;
mod machine;
mod pending;
mod refusal;

use example_table::{is_told, named_row, refuse_row, sides_of};
use refusal::Refusal;
use std::process::ExitCode;
use std::sync::Wait;
use std::thread::Threads;
use std::{fs, io};

fn main(rt: HostRuntime) -> io::Result<ExitCode> {
    let table = fs::read_to_string(&rt, "threads.txt")?;
    for line in table.lines() {
        if !passes(&rt, line)? {
            return Ok(ExitCode::from(1));
        }
    }
    Ok(ExitCode::from(0))
}

/// Runs the example of a line, if it has one, and tells of it. True: the next one may run.
fn passes<R: Threads + Wait + Sync + Print + Eprint + AllocGlobal>(
    rt: &R,
    line: &str,
) -> io::Result<bool> {
    let Some((kind, text)) = named_row(line) else {
        return Ok(true);
    };
    let (Some((name, given)), Some((_, wanted))) = (named_row(text), sides_of(text)) else {
        return refuse(rt, line);
    };
    let given = given.split("=>").next().unwrap_or("").trim();
    let mut answer = String::new(rt.alloc());
    match run(rt, kind, given, &mut answer) {
        Ok(()) if answer.as_str() == wanted => is_told(rt, name, None),
        Ok(()) => is_told(rt, name, Some(answer)),
        Err(Refusal::NoRow) => refuse(rt, line),
        Err(Refusal::OutOfMemory) => Err(io::Error::from(io::ErrorKind::OutOfMemory)),
    }
}

/// Tells that a line is no row.
fn refuse<R: Eprint>(rt: &R, line: &str) -> io::Result<bool> {
    refuse_row(rt, line)?;
    Ok(false)
}

/// Runs an example, and adds what comes out of it to a text.
fn run<R: Threads + Wait + Sync + AllocGlobal>(
    rt: &R,
    kind: &str,
    given: &str,
    out: &mut String,
) -> Result<(), Refusal> {
    let alloc = rt.alloc();
    match kind {
        "whole" => books::whole(alloc, given, out),
        "turns" => books::by_turns(alloc, given, out),
        "steps" => machine::steps(alloc, given, out),
        "played" => machine::played(alloc, given, out),
        "built" => built::built(rt, alloc, given, out),
        "worked" => built::worked(alloc, given, out),
        "many" => built::many(rt, alloc, given, out),
        "copied" => pending::copied(alloc, given, out),
        "ahead" => ahead::ahead(rt, alloc, given, out),
        "pipe" => ahead::pipe(rt, alloc, given, out),
        "beside" => beside::beside(rt, alloc, given, out),
        "held" => beside::held(rt, alloc, given, out),
        _ => Err(Refusal::NoRow),
    }
}
