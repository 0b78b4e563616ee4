//! Files of queries, as they are read.
use crate::notation::{queries_of, style};
use crate::refusal::Refusal;
use example_table::bytes_of;
use map_query::{Query, QueryFault, QueryWhy};
use osm_base::Kind;
use std::alloc::Global;

/// The queries of a file, or the line that is none and its cause.
pub fn read(alloc: Global, given: &str, out: &mut String) -> Result<(), Refusal> {
    match bytes_of(alloc, given)? {
        Some(bytes) => read_file(alloc, &bytes, out),
        None => Err(Refusal::NoRow),
    }
}

/// The queries of the bytes of a file, or the line that is none and its cause.
fn read_file(alloc: Global, bytes: &[u8], out: &mut String) -> Result<(), Refusal> {
    let style = style(alloc)?;
    match queries_of(alloc, bytes, &style) {
        Ok(queries) => push_queries(queries.as_slice(), out),
        Err(QueryFault::Bad { line, why }) => push_bad(line, why, out),
        Err(QueryFault::OutOfMemory) => Err(Refusal::OutOfMemory),
    }
}

/// Adds the line that is no query, and its cause.
fn push_bad(line: u32, why: QueryWhy, out: &mut String) -> Result<(), Refusal> {
    let cause = why.number();
    write!(out, "bad line {line} cause {cause}")?;
    Ok(())
}

/// Adds how many queries there are, and each with a comma before it.
fn push_queries(queries: &[Query], out: &mut String) -> Result<(), Refusal> {
    let count = queries.len();
    write!(out, "{count}")?;
    for query in queries {
        push_query(query, out)?;
    }
    Ok(())
}

/// Adds a query: what it asks for, the number of its table, and the key or the sides of the box in units.
fn push_query(query: &Query, out: &mut String) -> Result<(), Refusal> {
    match *query {
        Query::Count { table } => write!(out, ", count {table}")?,
        Query::One { table, key } => {
            let kind = kind_of(key.kind);
            let id = key.id;
            write!(out, ", row {table} {kind} {id}")?
        }
        Query::Box { table, asked } => {
            let (west, south, east, north) = (asked.west, asked.south, asked.east, asked.north);
            write!(out, ", box {table} {west} {south} {east} {north}")?
        }
    }
    Ok(())
}

fn kind_of(kind: Kind) -> &'static str {
    match kind {
        Kind::Node => "node",
        Kind::Way => "way",
        Kind::Relation => "relation",
    }
}
