//! First pages are put into directories and into the root page.
ghost use Rattle.std.specs.Prelude.{◌≡◌, ◌+◌, ◌-◌, ◌*◌, ◌≤◌, ◌<◌, length, map, IfOk};
ghost use Rattle.outside.specs.Disk.{overlaid};
ghost use Rattle.std.specs.List.{All};
ghost use Rattle.std.specs.Int.{w64, to_le_bytes};
ghost use Rattle.chain_store.specs.Firsts.{MayFill, filled, firsts_put, first_put};
ghost use Rattle.chain_store.specs.Parts.{head_or};

use crate::layout::{BUCKET, DIRECTORY, MAX_BUCKETS};
use crate::marks::same_pages;
use crate::parts::{Laid, Part};
use osm_base::{Bytes, OutOfMemory};
use std::alloc::Global;

/// Puts a number at its place.
pub fn put_number(bytes: &mut [u8], at: usize, value: u64)
    requires { at + 8 ≤ length bytes.old }
    ensures { bytes.new ≡ overlaid at (to_le_bytes w64 value) bytes.old }
{
    bytes[at..at + 8].copy_from_slice(&value.to_le_bytes());
}

/// Puts the first page of each of these chains at its place, where its number is among so many from `low` on. They stand
/// from `at` on.
pub fn put_firsts(bytes: &mut [u8], at: usize, low: u32, count: usize, laid: &[Laid])
    requires { at + 8 * count ≤ length bytes.old }
    ensures { bytes.new ≡ firsts_put at low count laid.now bytes.old }
{
    for one in laid {
        put_first(bytes, at, low, count, one);
    }
}

// Puts the first page of a chain at its place, where it has one.
fn put_first(bytes: &mut [u8], at: usize, low: u32, count: usize, one: &Laid)
    requires { at + 8 * count ≤ length bytes.old }
    ensures { bytes.new ≡ first_put at low count one.now bytes.old }
{
    if one.number < low {
        return;
    }
    let place = (one.number - low) as usize;
    if place >= count {
        return;
    }
    put_number(bytes, at + 8 * place, head_of(one.pages.as_slice()));
}

/// The first of these pages, or 0.
pub fn head_of(pages: &[u64]) -> u64
    ensures { result ≡ head_or pages.now 0 }
{
    match pages.first() {
        Some(page) => *page,
        None => 0,
    }
}

/// Puts the first pages of these chains into the directories of their maps.
pub fn fill_all(
    alloc: Global,
    directories: Vec<Part>,
    count: usize,
    laid: &[Laid],
) -> Result<Vec<Part>, OutOfMemory>
    requires { All (MayFill count) directories.items }
    ensures { IfOk result (λ parts. parts.items ≡ map (filled count laid.now) directories.items) }
{
    let mut parts = Vec::with_capacity(alloc, directories.len())?;
    for directory in directories {
        parts.push(fill(alloc, directory, count, laid)?)?;
    }
    Ok(parts)
}

// Puts the first pages of the buckets of a map into its directory, and marks the pages that keep their bytes.
fn fill(alloc: Global, directory: Part, count: usize, laid: &[Laid]) -> Result<Part, OutOfMemory>
    requires { MayFill count directory }
    ensures { IfOk result (λ part. part ≡ filled count laid.now directory) }
{
    let Part {
        number,
        old,
        before,
        same: _,
        bytes,
    } = directory;
    let mut filled = bytes.into_vec();
    put_firsts(&mut filled, 0, first_bucket(number), count, laid);
    let same = same_pages(alloc, before.as_slice(), &filled)?;
    Ok(Part {
        number,
        old,
        before,
        same,
        bytes: Bytes::from_vec(filled),
    })
}

// The chain of the first bucket of the map of a directory.
fn first_bucket(number: u32) -> u32
    requires { (8 ≤ number) × (number < 16) }
    ensures { result ≡ 16 + 65536 * (number - 8) }
{
    BUCKET + MAX_BUCKETS * (number - DIRECTORY)
}
