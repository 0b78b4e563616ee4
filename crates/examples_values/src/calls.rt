//! Calls on a store that keeps values, as rows of the table tell them.
ghost use Rattle.std.specs.Prelude.{◌≡◌, false, OnOk};
ghost use Rattle.bucket_store.specs.Transaction.{IsReady, has_refused};

use crate::hex;
use crate::lists::ids_text;
use crate::rows::style;
use crate::typed::{on_node, on_object, on_rows, rows_removed};
use back_index::listers;
use bucket_store::{Buckets, open};
use doubles::{Fails, MemDisk};
use example_table::{named_row, number_in};
use osm_base::{Bytes, Key, Kind, Limits, MAX_ID, OutOfMemory};
use page_journal::{StoreFault, format};
use std::alloc::{AllocError, Global};
use value_bytes::StoreMap;

/// How many buckets the store of a row has.
const BUCKETS: u64 = 16;

/// What the calls of a row answer, one after another, in a store that was just made. The first refusal is the last answer.
pub fn calls(alloc: Global, given: &str) -> Result<Option<String>, OutOfMemory> {
    let mut disk = empty(alloc);
    called(alloc, &mut disk, given)
}

/// A disk without bytes.
pub fn empty(alloc: Global) -> MemDisk {
    MemDisk::new(alloc, Bytes::new(alloc), Fails::never(alloc))
}

/// The same on this disk, map is formatted first.
pub fn called(
    alloc: Global,
    disk: &mut MemDisk,
    given: &str,
) -> Result<Option<String>, OutOfMemory> {
    let limits = Limits::standard();
    if format(disk).is_err() {
        return Ok(None);
    }
    let Ok(opened) = open(alloc, disk, &limits) else {
        return Ok(None);
    };
    let mut buckets = Buckets::on(alloc, disk, &limits, opened);
    if buckets.root().buckets != 0 || !BUCKETS.is_power_of_two() {
        return Ok(None);
    }
    buckets.set_buckets(BUCKETS);
    let answers = answers_of(alloc, &mut buckets, given);
    let mut kept = None;
    let _disk = buckets.hand_back(&mut kept);
    answers
}

// The answers of the calls. `None`: one of them is none.
fn answers_of(
    alloc: Global,
    buckets: &mut Buckets<'_, MemDisk>,
    given: &str,
) -> Result<Option<String>, OutOfMemory>
    requires { has_refused buckets.old ≡ false }
{
    let mut answers = String::new(alloc);
    for call in given.split(';') {
        if buckets.root().buckets == 0 {
            return Ok(None);
        }
        match answer_of(alloc, buckets, call) {
            Ok(Some(answer)) => push_answer(&mut answers, answer.as_str())?,
            Ok(None) => return Ok(None),
            Err(StoreFault::OutOfMemory) => return Err(OutOfMemory),
            Err(fault) => {
                push_fault(&mut answers, &fault)?;
                break;
            }
        }
    }
    Ok(Some(answers))
}

/// Adds what stands between answers, where there is one already.
pub fn push_gap(answers: &mut String) -> Result<(), AllocError> {
    if answers.is_empty() {
        return Ok(());
    }
    answers.push_str("; ")
}

/// Puts a refusal behind the answers.
pub fn push_fault(answers: &mut String, fault: &StoreFault) -> Result<(), AllocError> {
    push_gap(answers)?;
    write!(answers, "{fault}")
}

// Puts an answer behind the others.
fn push_answer(answers: &mut String, answer: &str) -> Result<(), AllocError> {
    push_gap(answers)?;
    answers.push_str(if answer.is_empty() { "-" } else { answer })
}

// What a call answers. `None`: there is no such call.
fn answer_of(
    alloc: Global,
    buckets: &mut Buckets<'_, MemDisk>,
    call: &str,
) -> Result<Option<String>, StoreFault>
    requires ready { IsReady buckets.old }
    ensures { OnOk result (has_refused buckets.new ≡ false) }
{
    let (word, text) = named_row(call).unwrap_or((call, ""));
    match word {
        "commit" => match buckets.commit() {
            Ok(()) => ok(alloc),
            Err(fault) => Err(fault),
        },
        "raw" => raw(alloc, buckets, text),
        "listers" => listed(alloc, buckets, text),
        _ => on_key(alloc, buckets, word, text),
    }
}

// What a call on a key answers.
fn on_key(
    alloc: Global,
    buckets: &mut Buckets<'_, MemDisk>,
    word: &str,
    text: &str,
) -> Result<Option<String>, StoreFault>
    requires ready { IsReady buckets.old }
    ensures { OnOk result (has_refused buckets.new ≡ false) }
{
    let Some((key, digits)) = key_of(text) else {
        return Ok(None);
    };
    let Some(bytes) = hex::bytes_of(alloc, digits)? else {
        return Ok(None);
    };
    match word {
        "rows" | "put_rows" => match style(alloc)? {
            None => Ok(None),
            Some(style) => on_rows(alloc, buckets, &style, word, key, &bytes),
        },
        "remove_rows" => rows_removed(alloc, buckets, key),
        _ => match key.kind {
            Kind::Node => on_node(alloc, buckets, word, key.id, &bytes),
            Kind::Way | Kind::Relation => on_object(alloc, buckets, word, key, &bytes),
        },
    }
}

// Sets the bytes of a key of a map, whatever they are: `MAP KEY BYTES`.
fn raw(
    alloc: Global,
    buckets: &mut Buckets<'_, MemDisk>,
    text: &str,
) -> Result<Option<String>, StoreFault>
    requires ready { IsReady buckets.old }
    ensures { OnOk result (has_refused buckets.new ≡ false) }
{
    let Some((map, key, digits)) = place_of(text) else {
        return Ok(None);
    };
    let Some(bytes) = hex::bytes_of(alloc, digits)? else {
        return Ok(None);
    };
    match buckets.put(map, key, &bytes) {
        Ok(()) => ok(alloc),
        Err(fault) => Err(fault),
    }
}

// Those that a list of the index has: `MAP KEY`.
fn listed(
    alloc: Global,
    buckets: &mut Buckets<'_, MemDisk>,
    text: &str,
) -> Result<Option<String>, StoreFault>
    requires ready { IsReady buckets.old }
    ensures { OnOk result (has_refused buckets.new ≡ false) }
{
    let Some((map, key, _)) = place_of(text) else {
        return Ok(None);
    };
    match listers(alloc, buckets, map, key) {
        Ok(ids) => Ok(Some(ids_text(alloc, ids.as_slice())?)),
        Err(fault) => Err(fault),
    }
}

/// What a call answers that only does what it is asked for.
pub fn ok(alloc: Global) -> Result<Option<String>, StoreFault> {
    Ok(Some(String::from_str(alloc, "ok")?))
}

// A map, a key of it, and the text behind them. `None`: there is no such map.
fn place_of(text: &str) -> Option<(StoreMap, u64, &str)> {
    let (number, behind) = named_row(text)?;
    let (key, rest) = named_row(behind)?;
    let map = StoreMap::with_number(number_in(number)?)?;
    Some((map, number_in(key)?, rest))
}

// A kind's letter and an id, and the text behind them.
fn key_of(text: &str) -> Option<(Key, &str)> {
    let (letter, behind) = named_row(text)?;
    let (id, rest) = named_row(behind)?;
    let id = number_in(id)?;
    if id == 0 || id > MAX_ID {
        return None;
    }
    let kind = match letter {
        "n" => Kind::Node,
        "w" => Kind::Way,
        "r" => Kind::Relation,
        _ => return None,
    };
    Some((Key::new(kind, id), rest))
}
