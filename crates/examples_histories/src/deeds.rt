//! What is done to the disk of an example.
ghost use Rattle.std.specs.Prelude.{◌≡◌, false, OnOk};
ghost use Rattle.bucket_store.specs.Transaction.{has_refused};

use bucket_store::Buckets;
use chain_store::Root;
use doubles::{Fails, MemDisk};
use example_table::{bytes_of, named_row, number_in};
use osm_base::{Bytes, Limits};
use page_journal::{StoreFault, format};
use std::alloc::{AllocError, Global};
use update_flow::STYLE_TEXT;
use value_bytes::StoreMap;

/// The most bytes that a deed lets a disk hold.
const MAX_HELD: usize = 1 << 20;

/// A change of a store.
#[derive(Drop)]
enum Change {
    /// It has so many buckets.
    Buckets(u64),
    /// Its fields are so.
    Fields {
        format: u64,
        state: u64,
        changes: u64,
    },
    /// Its style has these bytes.
    Style(Vec<u8>),
    /// The value of a key of a map has these bytes.
    Value {
        map: StoreMap,
        key: u64,
        bytes: Vec<u8>,
    },
}

/// Does a deed. False: there is no such deed, or the disk refuses it.
pub fn is_done(alloc: Global, disk: &mut MemDisk, deed: &str) -> Result<bool, AllocError> {
    let Some((word, text)) = named_row(deed) else {
        return Ok(false);
    };
    match word {
        "none" => Ok(true),
        "format" => Ok(format(disk).is_ok()),
        "bytes" => Ok(is_held(alloc, disk, bytes_of(alloc, text)?)),
        "cut" => {
            let front = front_of(alloc, disk.bytes(), text)?;
            Ok(is_held(alloc, disk, front))
        }
        _ => match change_of(alloc, word, text)? {
            Some(change) => Ok(changed(alloc, disk, change).is_ok()),
            None => Ok(false),
        },
    }
}

// The disk holds these bytes from now on, where they are not too many.
fn is_held(alloc: Global, disk: &mut MemDisk, bytes: Option<Vec<u8>>) -> bool {
    match bytes {
        Some(bytes) if bytes.len() <= MAX_HELD => {
            *disk = MemDisk::new(alloc, Bytes::from_vec(bytes), Fails::never(alloc));
            true
        }
        _ => false,
    }
}

// So many of these bytes, from the first on.
fn front_of(alloc: Global, bytes: &[u8], text: &str) -> Result<Option<Vec<u8>>, AllocError> {
    let Some(count) = number_in(text) else {
        return Ok(None);
    };
    let count = usize::try_from(count)
        .unwrap_or(bytes.len())
        .min(bytes.len());
    Ok(Some(Vec::from_slice(alloc, &bytes[..count])?))
}

// The change that a deed writes.
fn change_of(alloc: Global, word: &str, text: &str) -> Result<Option<Change>, AllocError> {
    match word {
        "buckets" => Ok(number_in(text).map(|count| Change::Buckets(count))),
        "fields" => Ok(fields_of(text)),
        "style" => Ok(bytes_of(alloc, text)?.map(|bytes| Change::Style(bytes))),
        "put" => value_of(alloc, text),
        _ => Ok(None),
    }
}

// The format, the state and the number of changes.
fn fields_of(text: &str) -> Option<Change> {
    let (format, behind) = named_row(text)?;
    let (state, changes) = named_row(behind)?;
    Some(Change::Fields {
        format: number_in(format)?,
        state: number_in(state)?,
        changes: number_in(changes)?,
    })
}

// The number of a map, a key, and the bytes of its value.
fn value_of(alloc: Global, text: &str) -> Result<Option<Change>, AllocError> {
    let Some((map, behind)) = named_row(text) else {
        return Ok(None);
    };
    let Some((key, value)) = named_row(behind) else {
        return Ok(None);
    };
    let Some(map) = number_in(map).and_then(StoreMap::with_number) else {
        return Ok(None);
    };
    match (number_in(key), bytes_of(alloc, value)?) {
        (Some(key), Some(bytes)) => Ok(Some(Change::Value { map, key, bytes })),
        _ => Ok(None),
    }
}

// Makes a change in one transaction.
fn changed(alloc: Global, disk: &mut MemDisk, change: Change) -> Result<(), StoreFault> {
    let limits = Limits::standard();
    let opened = bucket_store::open(alloc, disk, &limits)?;
    let mut buckets = Buckets::on(alloc, disk, &limits, opened);
    make(&mut buckets, change)?;
    buckets.commit()
}

// Makes a change within the transaction.
fn make(buckets: &mut Buckets<'_, MemDisk>, change: Change) -> Result<(), StoreFault>
    requires { has_refused buckets.old ≡ false }
    ensures { OnOk result (has_refused buckets.new ≡ false) }
{
    let now = buckets.root().buckets;
    match change {
        Change::Buckets(count) => {
            if !count.is_power_of_two() || count > 65536 || now != 0 {
                return Err(StoreFault::NotEmpty);
            }
            buckets.set_buckets(count);
            Ok(())
        }
        Change::Fields {
            format,
            state,
            changes,
        } => {
            buckets.set_root(Root {
                format,
                state,
                changes,
                buckets: now,
            });
            Ok(())
        }
        Change::Style(bytes) => buckets.store(STYLE_TEXT, Bytes::from_vec(bytes)),
        Change::Value { map, key, bytes } => {
            if now == 0 {
                return Err(StoreFault::NotEmpty);
            }
            buckets.put(map, key, bytes.as_slice())
        }
    }
}
