//! Calls on values of a store, each with its bytes.
ghost use Rattle.std.specs.Prelude.{◌≡◌, ◌≢◌, false, OnOk};
ghost use Rattle.osm_base.specs.declared.values.key.Kind.TheVariants as kinds;
ghost use Rattle.bucket_store.specs.Transaction.{IsReady, has_refused};

use crate::calls::ok;
use crate::objects::{object_text, place_text, record_text};
use crate::rows::rows_text;
use back_index::relist;
use bucket_store::Buckets;
use doubles::MemDisk;
use middle_nodes::NodeRecord;
use middle_objs::read_object;
use osm_base::{Key, OutOfMemory};
use page_journal::StoreFault;
use row_store::read_rows;
use std::alloc::Global;
use style_read::Style;
use value_bytes::{ValueFault, read_whole};

/// What a call on a node answers. `None`: there is no such call.
pub fn on_node(
    alloc: Global,
    buckets: &mut Buckets<'_, MemDisk>,
    word: &str,
    id: u64,
    bytes: &[u8],
) -> Result<Option<String>, StoreFault>
    requires ready { IsReady buckets.old }
    ensures { OnOk result (has_refused buckets.new ≡ false) }
{
    match word {
        "get" => match middle_nodes::get(alloc, buckets, id) {
            Ok(Some(record)) => Ok(Some(record_text(alloc, &record)?)),
            Ok(None) => none(alloc),
            Err(fault) => Err(fault),
        },
        "old" => match middle_nodes::get_old(alloc, buckets, id) {
            Ok(Some(place)) => Ok(Some(place_text(alloc, place)?)),
            Ok(None) => none(alloc),
            Err(fault) => Err(fault),
        },
        "put" => node_put(alloc, buckets, id, bytes),
        "remove" => match middle_nodes::remove(buckets, id) {
            Ok(was) => said(alloc, was),
            Err(fault) => Err(fault),
        },
        _ => Ok(None),
    }
}

// Sets the record of a node with these bytes.
fn node_put(
    alloc: Global,
    buckets: &mut Buckets<'_, MemDisk>,
    id: u64,
    bytes: &[u8],
) -> Result<Option<String>, StoreFault>
    requires ready { IsReady buckets.old }
    ensures { OnOk result (has_refused buckets.new ≡ false) }
{
    match read_whole::<NodeRecord>(alloc, bytes) {
        Ok(record) => match middle_nodes::put(alloc, buckets, id, &record) {
            Ok(()) => ok(alloc),
            Err(fault) => Err(fault),
        },
        Err(ValueFault::NotSpelled) => Ok(None),
        Err(ValueFault::OutOfMemory) => Err(StoreFault::OutOfMemory),
    }
}

/// What a call on a way or a relation answers. `None`: there is no such call.
pub fn on_object(
    alloc: Global,
    buckets: &mut Buckets<'_, MemDisk>,
    word: &str,
    key: Key,
    bytes: &[u8],
) -> Result<Option<String>, StoreFault>
    requires kind { key.kind ≢ kinds.Node }
    requires ready { IsReady buckets.old }
    ensures { OnOk result (has_refused buckets.new ≡ false) }
{
    match word {
        "get" => match middle_objs::get(alloc, buckets, key) {
            Ok(Some(object)) => Ok(Some(object_text(alloc, &object)?)),
            Ok(None) => none(alloc),
            Err(fault) => Err(fault),
        },
        "remove" => match middle_objs::remove(buckets, key) {
            Ok(was) => said(alloc, was),
            Err(fault) => Err(fault),
        },
        _ => with_object(alloc, buckets, word, key, bytes),
    }
}

// What a call answers that is given the bytes of an object.
fn with_object(
    alloc: Global,
    buckets: &mut Buckets<'_, MemDisk>,
    word: &str,
    key: Key,
    bytes: &[u8],
) -> Result<Option<String>, StoreFault>
    requires kind { key.kind ≢ kinds.Node }
    requires ready { IsReady buckets.old }
    ensures { OnOk result (has_refused buckets.new ≡ false) }
{
    let object = match read_object(alloc, key.kind, bytes) {
        Ok(object) => object,
        Err(ValueFault::NotSpelled) => return Ok(None),
        Err(ValueFault::OutOfMemory) => return Err(StoreFault::OutOfMemory),
    };
    let done = match word {
        "put" => middle_objs::put(alloc, buckets, key, &object),
        "list" => relist(alloc, buckets, key, &None, &Some(object)),
        "unlist" => relist(alloc, buckets, key, &Some(object), &None),
        _ => return Ok(None),
    };
    match done {
        Ok(()) => ok(alloc),
        Err(fault) => Err(fault),
    }
}

/// What a call on the rows of an object answers: it gets them, or sets those with these bytes.
pub fn on_rows(
    alloc: Global,
    buckets: &mut Buckets<'_, MemDisk>,
    style: &Style,
    word: &str,
    key: Key,
    bytes: &[u8],
) -> Result<Option<String>, StoreFault>
    requires ready { IsReady buckets.old }
    ensures { OnOk result (has_refused buckets.new ≡ false) }
{
    if word == "rows" {
        return match row_store::get(alloc, buckets, style, key) {
            Ok(Some(rows)) => Ok(Some(rows_text(alloc, &rows)?)),
            Ok(None) => none(alloc),
            Err(fault) => Err(fault),
        };
    }
    match read_rows(alloc, style, bytes) {
        Ok(rows) => match row_store::put(alloc, buckets, style, key, &rows) {
            Ok(()) => ok(alloc),
            Err(fault) => Err(fault),
        },
        Err(ValueFault::NotSpelled) => Ok(None),
        Err(ValueFault::OutOfMemory) => Err(StoreFault::OutOfMemory),
    }
}

/// Takes out the rows of an object, and says whether there were any.
pub fn rows_removed(
    alloc: Global,
    buckets: &mut Buckets<'_, MemDisk>,
    key: Key,
) -> Result<Option<String>, StoreFault>
    requires ready { IsReady buckets.old }
    ensures { OnOk result (has_refused buckets.new ≡ false) }
{
    match row_store::remove(buckets, key) {
        Ok(was) => said(alloc, was),
        Err(fault) => Err(fault),
    }
}

// What a call answers that finds nothing.
fn none(alloc: Global) -> Result<Option<String>, StoreFault> {
    Ok(Some(String::from_str(alloc, "none")?))
}

// What a call answers that says whether there was something.
fn said(alloc: Global, was: bool) -> Result<Option<String>, StoreFault> {
    let word = if was { "true" } else { "false" };
    Ok(Some(String::from_str(alloc, word)?))
}
