//! Keys of objects, as a table writes them: the letter of the kind and the id.
ghost use Rattle.std.specs.Prelude.{IfSome};
ghost use Rattle.osm_base.specs.values.Key.{IsId};

use example_table::number_in;
use osm_base::{Key, Kind, MAX_ID};
use std::alloc::{AllocError, Global};

/// Adds the text of a key.
pub fn put_key(alloc: Global, found: &mut Vec<u8>, key: Key) -> Result<(), AllocError> {
    let letter = match key.kind {
        Kind::Node => "n",
        Kind::Way => "w",
        Kind::Relation => "r",
    };
    put_number(alloc, found, letter, key.id)
}

/// Adds a number behind a text.
pub fn put_number(
    alloc: Global,
    found: &mut Vec<u8>,
    before: &str,
    number: u64,
) -> Result<(), AllocError> {
    let text = format!(in alloc; "{before}{number}")?;
    found.extend_from_slice(text.as_bytes())
}

/// The key that a field writes.
pub fn key_of(field: &str) -> Option<Key> {
    if let Some(id) = field.strip_prefix('n') {
        return Some(Key::new(Kind::Node, id_of(id)?));
    }
    if let Some(id) = field.strip_prefix('w') {
        return Some(Key::new(Kind::Way, id_of(id)?));
    }
    let id = field.strip_prefix('r')?;
    Some(Key::new(Kind::Relation, id_of(id)?))
}

/// The id that a field writes.
fn id_of(field: &str) -> Option<u64>
    ensures id { IfSome result IsId }
{
    let id = number_in(field)?;
    if id < 1 || id > MAX_ID {
        return None;
    }
    Some(id)
}
