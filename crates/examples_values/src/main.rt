//! Runs the examples of a store's buckets and of what is kept in them, and prints the name of each up to the first that differs.
//!
//! The heads of `buckets.txt` and `values.txt` say how they are written, and where what is wanted comes from.
#![tactic(auto)]

mod asked;
mod buckets;
mod calls;
mod feeds;
mod hex;
mod lists;
mod objects;
mod rows;
mod typed;

use buckets::buckets_pass;
use example_table::{Examples, run_examples};
use osm_base::OutOfMemory;
use std::alloc::Global;
use std::io;
use std::process::ExitCode;

fn main(rt: HostRuntime) -> io::Result<ExitCode> {
    if !buckets_pass(&rt)? {
        return Ok(ExitCode::from(1));
    }
    run_examples::<OfValues, HostRuntime>(&rt, &["values.txt"])
}

/// The examples of values.
struct OfValues;

impl Examples for OfValues {
    type Refusal = OutOfMemory;

    fn answer_of(alloc: Global, kind: &str, given: &str) -> Result<Option<String>, OutOfMemory> {
        match kind {
            "calls" => calls::calls(alloc, given),
            "ways" => asked::ways(alloc, given),
            "cut" => cut(alloc, given),
            "feed" => feeds::feed(alloc, given),
            "feed_alone" => feeds::feed_alone(alloc, given),
            _ => match hex::bytes_of(alloc, given)? {
                Some(bytes) => value(alloc, kind, &bytes),
                None => Ok(None),
            },
        }
    }
}

/// What a value of this kind with these bytes is. `None`: there is no such kind.
fn value(alloc: Global, kind: &str, bytes: &[u8]) -> Result<Option<String>, OutOfMemory> {
    match kind {
        "node" => objects::node(alloc, bytes),
        "place" => objects::place(alloc, bytes),
        "way" => objects::way(alloc, bytes),
        "relation" => objects::relation(alloc, bytes),
        "ids" => lists::ids(alloc, bytes),
        "row0" => rows::row(alloc, 0, bytes),
        "row1" => rows::row(alloc, 1, bytes),
        "row2" => rows::row(alloc, 2, bytes),
        "rows" => rows::rows(alloc, bytes),
        _ => Ok(None),
    }
}

/// At how many lengths the bytes of a value, cut short, are a value.
fn cut(alloc: Global, given: &str) -> Result<Option<String>, OutOfMemory> {
    let Some((kind, given)) = given.split_once(' ') else {
        return Ok(None);
    };
    let Some(bytes) = hex::bytes_of(alloc, given)? else {
        return Ok(None);
    };
    let mut whole: u64 = 0;
    for length in 0..bytes.len() {
        match value(alloc, kind, &bytes[..length])? {
            Some(text) => {
                if text.as_str() != "none" && whole < u64::MAX {
                    whole += 1;
                }
            }
            None => return Ok(None),
        }
    }
    Ok(Some(format!(in alloc; "{whole} of {}", bytes.len())?))
}
