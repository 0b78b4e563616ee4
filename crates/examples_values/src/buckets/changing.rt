//! Deeds that change a store.
ghost use Rattle.std.specs.Prelude.{◌≡◌, false, OnOk};
ghost use Rattle.bucket_store.specs.Transaction.{has_refused};

use crate::buckets::deeds::{key_of, none, string_of};
use bucket_store::Buckets;
use chain_store::Root;
use doubles::MemDisk;
use example_table::{named_row, number_in};
use osm_base::Bytes;
use page_journal::StoreFault;
use std::alloc::{AllocError, Global};

/// Sets the value of a key.
pub fn put(
    alloc: Global,
    buckets: &mut Buckets<'_, MemDisk>,
    text: &str,
) -> Result<String, StoreFault>
    requires { has_refused buckets.old ≡ false }
    ensures { OnOk result (has_refused buckets.new ≡ false) }
{
    let Some((map, key, value)) = key_of(text) else {
        return none(alloc);
    };
    if buckets.root().buckets == 0 {
        return none(alloc);
    }
    let value = spelled(alloc, value)?;
    match buckets.put(map, key, &value) {
        Ok(()) => Ok(String::from_str(alloc, "ok")?),
        Err(fault) => Err(fault),
    }
}

/// Takes a key out, and answers whether it was there.
pub fn remove(
    alloc: Global,
    buckets: &mut Buckets<'_, MemDisk>,
    text: &str,
) -> Result<String, StoreFault>
    requires { has_refused buckets.old ≡ false }
    ensures { OnOk result (has_refused buckets.new ≡ false) }
{
    let Some((map, key, _)) = key_of(text) else {
        return none(alloc);
    };
    if buckets.root().buckets == 0 {
        return none(alloc);
    }
    match buckets.remove(map, key) {
        Ok(was) => Ok(format!(in alloc; "{was}")?),
        Err(fault) => Err(fault),
    }
}

/// Gives a string a text.
pub fn give(
    alloc: Global,
    buckets: &mut Buckets<'_, MemDisk>,
    text: &str,
) -> Result<String, StoreFault>
    requires { has_refused buckets.old ≡ false }
    ensures { OnOk result (has_refused buckets.new ≡ false) }
{
    let Some((n, text)) = string_of(text) else {
        return none(alloc);
    };
    let bytes = spelled(alloc, text)?;
    match buckets.store(n, Bytes::from_vec(bytes)) {
        Ok(()) => Ok(String::from_str(alloc, "ok")?),
        Err(fault) => Err(fault),
    }
}

/// Gives the store another format, state and number of changes.
pub fn fields(
    alloc: Global,
    buckets: &mut Buckets<'_, MemDisk>,
    text: &str,
) -> Result<String, StoreFault>
    requires { has_refused buckets.old ≡ false }
    ensures { OnOk result (has_refused buckets.new ≡ false) }
{
    let Some((format, state, changes)) = fields_of(text) else {
        return none(alloc);
    };
    let buckets_now = buckets.root().buckets;
    buckets.set_root(Root {
        format,
        state,
        changes,
        buckets: buckets_now,
    });
    Ok(String::from_str(alloc, "ok")?)
}

/// Gives a store without buckets some.
pub fn set_bucket_count(
    alloc: Global,
    buckets: &mut Buckets<'_, MemDisk>,
    text: &str,
) -> Result<String, StoreFault>
    requires { has_refused buckets.old ≡ false }
    ensures { OnOk result (has_refused buckets.new ≡ false) }
{
    let count = number_in(text).unwrap_or(0);
    if !count.is_power_of_two() || count > 65536 || buckets.root().buckets != 0 {
        return none(alloc);
    }
    buckets.set_buckets(count);
    Ok(String::from_str(alloc, "ok")?)
}

// The bytes of a text: `*COUNT` is so many `x`.
fn spelled(alloc: Global, text: &str) -> Result<Vec<u8>, AllocError> {
    let Some(count) = text.strip_prefix('*') else {
        return Vec::from_slice(alloc, text.as_bytes());
    };
    let mut bytes = Vec::new(alloc);
    for _ in 0..number_in(count).unwrap_or(0) {
        bytes.push(b'x')?;
    }
    Ok(bytes)
}

// Three numbers.
fn fields_of(text: &str) -> Option<(u64, u64, u64)> {
    let (format, behind) = named_row(text)?;
    let (state, changes) = named_row(behind)?;
    Some((number_in(format)?, number_in(state)?, number_in(changes)?))
}
