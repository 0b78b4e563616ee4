//! Examples of a publisher and a reader in one thread.
use crate::notation::{changes_of, queries_of, style, tables_of};
use crate::refusal::Refusal;
use crate::shows::Shows;
use crate::stage::{Stage, count};
use example_table::named_row;
use osm_base::TryCopy;
use std::alloc::Global;
use std::sync::Wait;
use style_read::Style;
use table_versions::versions;

/// A row `ROWS | STEP | STEP..`: what a reader answers while a publisher publishes. The tables begin with the rows, and
/// a step is `publish CHANGES`, `tell`, `look QUERY` or `count TABLE`. Then the publisher is ended, and the reader
/// counts and looks once more.
pub fn steps<R: Wait>(rt: &R, alloc: Global, given: &str, out: &mut String) -> Result<(), Refusal> {
    let (rows, steps) = given.split_once('|').unwrap_or((given, ""));
    let style = style(alloc)?;
    let mut stage = stage_of(rt, alloc, &style, rows)?;
    let taken = take_steps(rt, alloc, &style, &mut stage, steps, out);
    let mut reader = stage.end(rt);
    match taken {
        Ok(()) => count(&mut reader, 0, out),
        refused => refused,
    }
}

/// A publisher of the tables of these rows, and its only reader.
fn stage_of<R: Wait>(rt: &R, alloc: Global, style: &Style, rows: &str) -> Result<Stage, Refusal> {
    let style = style.copy(alloc)?;
    let tables = tables_of(alloc, rows)?;
    let (publisher, mut readers) = versions(rt, alloc, style, tables, 0, 1)?;
    match readers.pop() {
        Some(reader) => Ok(Stage::new(Shows::new(publisher, 0), reader)),
        None => {
            publisher.end(rt);
            Err(Refusal::NoRow)
        }
    }
}

/// Takes steps, and adds what the reader answers.
fn take_steps<R: Wait>(
    rt: &R,
    alloc: Global,
    style: &Style,
    stage: &mut Stage,
    steps: &str,
    out: &mut String,
) -> Result<(), Refusal> {
    for step in steps.split('|') {
        if let Some((word, rest)) = named_row(step) {
            take_step(rt, alloc, style, stage, word, rest, out)?;
        }
    }
    Ok(())
}

/// Takes a step, and adds what the reader answers, if it is asked.
fn take_step<R: Wait>(
    rt: &R,
    alloc: Global,
    style: &Style,
    stage: &mut Stage,
    word: &str,
    rest: &str,
    out: &mut String,
) -> Result<(), Refusal> {
    match word {
        "publish" => stage.publish(rt, changes_of(alloc, rest)?),
        "tell" => {
            stage.tell();
            Ok(())
        }
        "look" => look_at(alloc, style, stage, rest, out),
        "count" => match rest.parse::<u32>() {
            Ok(table) => stage.count(table, out),
            Err(_) => Err(Refusal::NoRow),
        },
        _ => Err(Refusal::NoRow),
    }
}

/// Adds what the reader answers to the query of a line.
fn look_at(
    alloc: Global,
    style: &Style,
    stage: &mut Stage,
    line: &str,
    out: &mut String,
) -> Result<(), Refusal> {
    let queries = queries_of(alloc, style, line)?;
    match queries.as_slice() {
        [query] => stage.look(alloc, query, out),
        _ => Err(Refusal::NoRow),
    }
}
