//! The deeds of the examples, by their words.
ghost use Rattle.std.specs.Prelude.{◌≡◌, ◌<◌, false, IfSome, OnOk};
ghost use Rattle.bucket_store.specs.Transaction.{has_refused};

use crate::buckets::changing::{fields, give, put, remove, set_bucket_count};
use crate::buckets::looking::{get, listed, load, root_text, whole};
use crate::buckets::pages::{free, home, pages_of};
use bucket_store::Buckets;
use doubles::MemDisk;
use example_table::{named_row, number_in};
use page_journal::StoreFault;
use std::alloc::{AllocError, Global};
use value_bytes::StoreMap;

/// What a deed answers.
pub fn answer_of(
    alloc: Global,
    buckets: &mut Buckets<'_, MemDisk>,
    deed: &str,
) -> Result<String, StoreFault>
    requires { has_refused buckets.old ≡ false }
    ensures { OnOk result (has_refused buckets.new ≡ false) }
{
    let (word, text) = named_row(deed).unwrap_or((deed, ""));
    match word {
        "get" => get(alloc, buckets, text),
        "records" => listed(alloc, buckets, text),
        "whole" => whole(alloc, buckets, text),
        "pages_of" => pages_of(alloc, buckets, text),
        "free" => free(alloc, buckets),
        "home" => home(alloc, buckets),
        "load" => load(alloc, buckets, text),
        "root" => root_text(alloc, buckets),
        "put" => put(alloc, buckets, text),
        "remove" => remove(alloc, buckets, text),
        "store" => give(alloc, buckets, text),
        "fields" => fields(alloc, buckets, text),
        "buckets" => set_bucket_count(alloc, buckets, text),
        _ => none(alloc),
    }
}

/// The answer of a deed that is none.
pub fn none(alloc: Global) -> Result<String, StoreFault> {
    Ok(String::from_str(alloc, "no deed")?)
}

/// Adds a blank, where something stands before it.
pub fn push_blank(text: &mut String) -> Result<(), AllocError> {
    if text.is_empty() {
        return Ok(());
    }
    text.push(' ')
}

/// A map, and the text behind it. `None`: there is no such map.
pub fn map_of(text: &str) -> Option<(StoreMap, &str)> {
    let (number, rest) = named_row(text)?;
    Some((StoreMap::with_number(number_in(number)?)?, rest))
}

/// A map, a key of it, and the text behind them. `None`: there is no such map.
pub fn key_of(text: &str) -> Option<(StoreMap, u64, &str)> {
    let (map, behind) = map_of(text)?;
    let (key, rest) = named_row(behind)?;
    Some((map, number_in(key)?, rest))
}

/// A string of the store, and the text behind it. `None`: there is no such string.
pub fn string_of(text: &str) -> Option<(u32, &str)>
    ensures { IfSome result (λ found. found.0 < 8) }
{
    let (n, rest) = named_row(text)?;
    let n = u32::try_from(number_in(n)?).ok()?;
    if n >= 8 {
        return None;
    }
    Some((n, rest))
}
