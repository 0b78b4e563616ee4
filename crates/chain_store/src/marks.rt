//! Which pages of a chain keep their bytes.
ghost use Rattle.std.specs.Prelude.{◌≡◌, IfOk};
ghost use Rattle.chain_store.specs.Marks.{mark_of, same_pages};

use crate::laying::cut;
use crate::parts::page_count;
use osm_base::{Bytes, OutOfMemory};
use std::alloc::Global;

/// A mark for each page that these bytes need: 1 where it held the same ones before.
pub fn same_pages(alloc: Global, before: &[u8], bytes: &[u8]) -> Result<Bytes, OutOfMemory>
    ensures { IfOk result (λ same. same ≡ same_pages before.now bytes.now) }
{
    let many = page_count(bytes);
    let mut marks = Vec::with_capacity(alloc, many)?;
    let mut rest_before = before;
    let mut rest = bytes;
    for _ in 0..many {
        let (held_before, later_before) = cut(rest_before);
        let (held, later) = cut(rest);
        marks.push(mark_of(held_before, held))?;
        rest_before = later_before;
        rest = later;
    }
    Ok(Bytes::from_vec(marks))
}

// The mark of a page that held these bytes, and holds those.
fn mark_of(before: &[u8], held: &[u8]) -> u8
    ensures { result ≡ mark_of before.now held.now }
{
    if before == held { 1 } else { 0 }
}
