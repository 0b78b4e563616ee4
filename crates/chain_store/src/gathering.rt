//! What a commit writes is gathered.
ghost use Rattle.std.specs.Prelude.{◌≡◌, ◌+◌, ◌*◌, ◌≤◌, ◌<◌, ◌==◌, Bool, ℕ, List, [], Some, length, replicate, IfOk, IsSome};
ghost use Rattle.std.specs.FinMap as map;
ghost use Rattle.chain_store.specs.Gathered.{AreGathered, base_of, base_parts};

use crate::layout::DIRECTORY;
use crate::number_map::NumberMap;
use crate::parts::Part;
use crate::walking::Walked;
use osm_base::{Bytes, Ids, OutOfMemory};
use std::alloc::Global;

/// The chains that were written, with the pages that they had and the marks of those that stay.
pub fn gather(
    alloc: Global,
    written: NumberMap<Bytes>,
    read: NumberMap<Ids>,
    before: NumberMap<Bytes>,
) -> Result<Vec<Part>, OutOfMemory>
    requires { (n : ℕ) (bytes : List ℕ) → map.get written n ≡ Some bytes → IsSome (map.get read n) }
    ensures { IfOk result (λ parts. AreGathered written read before parts.items) }
{
    let mut left = written;
    let mut known = read;
    let mut had = before;
    let mut parts = Vec::new(alloc);
    loop {
        let (number, bytes) = match left.take_first() {
            Some(entry) => entry,
            None => return Ok(parts),
        };
        let old = known.take_or(number, Ids::new(alloc));
        let same = had.take_or(number, Bytes::new(alloc));
        parts.push(Part {
            number,
            old,
            before: Bytes::new(alloc),
            same,
            bytes,
        })?;
    }
}

/// The directories of all maps, where each map gets so many buckets, without new first pages.
pub fn directory_parts(
    alloc: Global,
    directories: &[Walked],
    same: bool,
    count: usize,
) -> Result<Vec<Part>, OutOfMemory>
    requires few { count ≤ 65536 }
    requires eight { length directories.now ≡ 8 }
    ensures { IfOk result (λ parts. parts.items ≡ base_parts same count 8 directories.now) }
{
    let mut parts = Vec::with_capacity(alloc, directories.len())?;
    let mut number = DIRECTORY;
    for directory in directories {
        parts.push(directory_part(alloc, directory, same, count, number)?)?;
        number += 1;
    }
    Ok(parts)
}

// The directory of a map.
fn directory_part(
    alloc: Global,
    directory: &Walked,
    same: bool,
    count: usize,
    number: u32,
) -> Result<Part, OutOfMemory>
    requires { count ≤ 65536 }
    ensures { IfOk result (λ part. part ≡ record {
      number = number;
      old = directory.now.pages.items;
      before = directory.now.bytes.items;
      same = [];
      bytes = base_of same count directory.now.bytes.items;
    }) }
{
    let old = Vec::from_slice(alloc, &directory.pages)?;
    let before = Vec::from_slice(alloc, &directory.bytes)?;
    Ok(Part {
        number,
        old: Ids::from_vec(old),
        before: Bytes::from_vec(before),
        same: Bytes::new(alloc),
        bytes: base(alloc, &directory.bytes, same, count)?,
    })
}

// The bytes of a directory, or as many zeros as so many buckets need.
fn base(alloc: Global, bytes: &[u8], same: bool, count: usize) -> Result<Bytes, OutOfMemory>
    requires { count ≤ 65536 }
    ensures { IfOk result (λ base. base ≡ base_of same count bytes.now) }
{
    if same {
        return Ok(Bytes::from_vec(Vec::from_slice(alloc, bytes)?));
    }
    let mut zeros = Vec::new(alloc);
    zeros.resize(8 * count, 0)?;
    Ok(Bytes::from_vec(zeros))
}
