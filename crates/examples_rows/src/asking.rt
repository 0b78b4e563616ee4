//! Queries, and what they find.
use crate::notation::{put_rows, queries_of, style};
use crate::refusal::Refusal;
use map_query::{Found, Query, answer};
use osm_base::{NumberedRow, Tables};
use std::alloc::Global;
use style_read::Style;

/// What the query before a `|` finds in the tables of the rows behind it.
pub fn asked(alloc: Global, given: &str, out: &mut String) -> Result<(), Refusal> {
    let Some((line, rows)) = given.split_once('|') else {
        return Err(Refusal::NoRow);
    };
    let style = style(alloc)?;
    let Ok(queries) = queries_of(alloc, line.trim().as_bytes(), &style) else {
        return Err(Refusal::NoRow);
    };
    match queries.as_slice().first() {
        Some(query) => push_answer(alloc, &style, query, rows, out),
        None => Err(Refusal::NoRow),
    }
}

/// Adds what a query finds in the tables of rows.
fn push_answer(
    alloc: Global,
    style: &Style,
    query: &Query,
    rows: &str,
    out: &mut String,
) -> Result<(), Refusal> {
    let mut tables = Tables::new(alloc);
    put_rows(alloc, rows, &mut tables)?;
    push_found(&answer(alloc, style, &tables, query)?, out)
}

/// Adds what a query finds: a count, or the numbers of rows.
fn push_found(found: &Found, out: &mut String) -> Result<(), Refusal> {
    match found {
        Found::Count(count) => {
            write!(out, "count {count}")?;
            Ok(())
        }
        Found::Rows(rows) => push_numbers(rows.as_slice(), out),
    }
}

/// Adds the numbers of rows.
fn push_numbers(rows: &[NumberedRow], out: &mut String) -> Result<(), Refusal> {
    out.push_str("rows")?;
    for row in rows {
        let number = row.number;
        write!(out, " {number}")?;
    }
    Ok(())
}
