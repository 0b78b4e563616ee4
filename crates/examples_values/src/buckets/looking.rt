//! Deeds that look at a store.
ghost use Rattle.std.specs.Prelude.{◌≡◌, false, OnOk};
ghost use Rattle.bucket_store.specs.Transaction.{has_refused};

use crate::buckets::deeds::{key_of, map_of, none, push_blank, string_of};
use bucket_store::{Buckets, WholeMap};
use doubles::MemDisk;
use example_table::number_in;
use osm_base::Bytes;
use page_journal::StoreFault;
use std::alloc::{AllocError, Global};

/// The value of a key, or `none`.
pub fn get(
    alloc: Global,
    buckets: &mut Buckets<'_, MemDisk>,
    text: &str,
) -> Result<String, StoreFault>
    requires { has_refused buckets.old ≡ false }
    ensures { OnOk result (has_refused buckets.new ≡ false) }
{
    let Some((map, key, _)) = key_of(text) else {
        return none(alloc);
    };
    if buckets.root().buckets == 0 {
        return none(alloc);
    }
    match buckets.get(map, key) {
        Ok(Some(value)) => Ok(value_text(alloc, value.as_slice())?),
        Ok(None) => Ok(String::from_str(alloc, "none")?),
        Err(fault) => Err(fault),
    }
}

/// The keys and values of the bucket of a key, by rising key.
pub fn listed(
    alloc: Global,
    buckets: &mut Buckets<'_, MemDisk>,
    text: &str,
) -> Result<String, StoreFault>
    requires { has_refused buckets.old ≡ false }
    ensures { OnOk result (has_refused buckets.new ≡ false) }
{
    let Some((map, key, _)) = key_of(text) else {
        return none(alloc);
    };
    if buckets.root().buckets == 0 {
        return none(alloc);
    }
    match buckets.records(map, key) {
        Ok(records) => Ok(records_text(alloc, &records)?),
        Err(fault) => Err(fault),
    }
}

/// The values that a map has for some keys, told by the whole map.
pub fn whole(
    alloc: Global,
    buckets: &mut Buckets<'_, MemDisk>,
    text: &str,
) -> Result<String, StoreFault>
    requires { has_refused buckets.old ≡ false }
    ensures { OnOk result (has_refused buckets.new ≡ false) }
{
    let Some((map, keys)) = map_of(text) else {
        return none(alloc);
    };
    if buckets.root().buckets == 0 {
        return none(alloc);
    }
    match buckets.whole(map) {
        Ok(whole) => Ok(values_text(alloc, &whole, keys)?),
        Err(fault) => Err(fault),
    }
}

/// The text of a string.
pub fn load(
    alloc: Global,
    buckets: &mut Buckets<'_, MemDisk>,
    text: &str,
) -> Result<String, StoreFault>
    requires { has_refused buckets.old ≡ false }
    ensures { OnOk result (has_refused buckets.new ≡ false) }
{
    let Some((n, _)) = string_of(text) else {
        return none(alloc);
    };
    match buckets.load(n) {
        Ok(bytes) => Ok(value_text(alloc, bytes.as_slice())?),
        Err(fault) => Err(fault),
    }
}

/// The fields of the store: format, state, changes and number of buckets.
pub fn root_text(alloc: Global, buckets: &mut Buckets<'_, MemDisk>) -> Result<String, StoreFault>
    requires { has_refused buckets.old ≡ false }
    ensures { OnOk result (has_refused buckets.new ≡ false) }
{
    let root = buckets.root();
    Ok(format!(in alloc;
        "{} {} {} {}",
        root.format, root.state, root.changes, root.buckets
    )?)
}

// The value of each key, or `none`.
fn values_text(alloc: Global, whole: &WholeMap, keys: &str) -> Result<String, AllocError> {
    let mut text = String::new(alloc);
    for key in keys.split(' ') {
        push_found(&mut text, whole, key)?;
    }
    Ok(text)
}

fn push_found(text: &mut String, whole: &WholeMap, key: &str) -> Result<(), AllocError> {
    push_blank(text)?;
    let Some(key) = number_in(key) else {
        return text.push_str("no key");
    };
    match whole.get(key) {
        None => text.push_str("none"),
        Some(value) => push_value(text, value),
    }
}

// Each key and its value.
fn records_text(alloc: Global, records: &[(u64, Bytes)]) -> Result<String, AllocError> {
    let mut text = String::new(alloc);
    for (key, value) in records {
        push_record(&mut text, *key, value.as_slice())?;
    }
    Ok(text)
}

fn push_record(text: &mut String, key: u64, value: &[u8]) -> Result<(), AllocError> {
    push_blank(text)?;
    write!(text, "{key}=")?;
    push_value(text, value)
}

fn value_text(alloc: Global, bytes: &[u8]) -> Result<String, AllocError> {
    let mut text = String::new(alloc);
    push_value(&mut text, bytes)?;
    Ok(text)
}

// Adds the bytes as text, where they are some; of many the number alone, as `*COUNT`.
fn push_value(text: &mut String, bytes: &[u8]) -> Result<(), AllocError> {
    if bytes.len() > 100 {
        return write!(text, "*{}", bytes.len());
    }
    match std::str::from_utf8(bytes) {
        Ok(own) => text.push_str(own),
        Err(_) => write!(text, "{bytes:?}"),
    }
}
