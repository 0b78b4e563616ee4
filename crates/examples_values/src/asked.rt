//! Questions to the index of a store that is opened again, as rows of the table tell them.
ghost use Rattle.std.specs.Prelude.{◌≡◌, false};

use crate::calls::{called, empty, push_fault, push_gap};
use crate::objects::push_numbers;
use back_index::Indexed;
use bucket_store::{Buckets, open};
use doubles::MemDisk;
use example_table::number_in;
use osm_base::{Back, Limits, OutOfMemory};
use page_journal::StoreFault;
use std::alloc::{AllocError, Global};

/// What the calls of a row answer, and then the ways of each of the nodes behind them.
pub fn ways(alloc: Global, given: &str) -> Result<Option<String>, OutOfMemory> {
    let Some((given, nodes)) = given.split_once(" | ") else {
        return Ok(None);
    };
    let mut disk = empty(alloc);
    called_and_asked(alloc, &mut disk, given, nodes)
}

// The calls on this disk, and then the questions.
fn called_and_asked(
    alloc: Global,
    disk: &mut MemDisk,
    given: &str,
    nodes: &str,
) -> Result<Option<String>, OutOfMemory> {
    let Some(mut answers) = called(alloc, disk, given)? else {
        return Ok(None);
    };
    push_asked(alloc, &mut answers, disk, nodes)?;
    Ok(Some(answers))
}

// Adds the ways of these nodes, by the index of the store on this disk.
fn push_asked(
    alloc: Global,
    answers: &mut String,
    disk: &mut MemDisk,
    nodes: &str,
) -> Result<(), AllocError> {
    let limits = Limits::standard();
    let opened = match open(alloc, disk, &limits) {
        Ok(opened) => opened,
        Err(fault) => return push_fault(answers, &fault),
    };
    let buckets = Buckets::on(alloc, disk, &limits, opened);
    if buckets.root().buckets == 0 {
        push_gap(answers)?;
        return answers.push_str("no buckets");
    }
    let mut indexed = Indexed::over(alloc, buckets);
    let told = push_ways(answers, &mut indexed, nodes);
    let mut kept = None;
    let _disk = indexed.close().hand_back(&mut kept);
    told
}

// Adds the ways of each of these nodes. The first refusal is the last answer.
fn push_ways<B: Back<Refusal = StoreFault>>(
    answers: &mut String,
    back: &mut B,
    nodes: &str,
) -> Result<(), AllocError>
    requires { B.spent back.old ≡ false }
{
    for node in nodes.split(' ') {
        match back.ways_of_node(number_in(node).unwrap_or(0)) {
            Ok(ids) => push_ids(answers, ids.as_slice())?,
            Err(fault) => return push_fault(answers, &fault),
        }
    }
    Ok(())
}

fn push_ids(answers: &mut String, ids: &[u64]) -> Result<(), AllocError> {
    push_gap(answers)?;
    if ids.is_empty() {
        return answers.push('-');
    }
    push_numbers(answers, ids)
}
