//! Lists of the index, as rows of the table tell them.
use crate::hex::{none, told};
use crate::objects::push_numbers;
use back_index::{ids_bytes, read_ids};
use osm_base::OutOfMemory;
use std::alloc::{AllocError, Global};
use value_bytes::ValueFault;

/// The ids with these bytes.
pub fn ids(alloc: Global, bytes: &[u8]) -> Result<Option<String>, OutOfMemory> {
    match read_ids(alloc, bytes) {
        Ok(ids) => {
            let again = ids_bytes(alloc, ids.as_slice())?;
            let text = ids_text(alloc, ids.as_slice())?;
            told(text, bytes, again.as_slice())
        }
        Err(ValueFault::NotSpelled) => none(alloc),
        Err(ValueFault::OutOfMemory) => Err(OutOfMemory),
    }
}

/// Ids, as a row says them.
pub fn ids_text(alloc: Global, ids: &[u64]) -> Result<String, AllocError> {
    let mut text = String::new(alloc);
    push_numbers(&mut text, ids)?;
    Ok(text)
}
