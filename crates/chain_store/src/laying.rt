//! Pages of chains are put into the set of a commit.
ghost use Rattle.std.specs.Prelude.{◌≡◌, ◌+◌, ◌-◌, ◌<◌, ◌≤◌, ◌==◌, ◌&&◌, cond, drop, length, slice_index, IfOk, OnOk};
ghost use Rattle.std.specs.FinMap as map;
ghost use Rattle.page_journal.specs.PageSet.{padded};
ghost use Rattle.chain_store.specs.Pairs.{chain_pairs, laid_pairs, link_page, puts, stays_so};
ghost use Rattle.chain_store.specs.Parts.{first_held, head_or, later_held};

use crate::layout::{HELD, LINK};
use crate::parts::Laid;
use osm_base::OutOfMemory;
use page_journal::PageSet;
use std::alloc::Global;

/// Puts the pages of these chains, without those that stay. Each chain is let go once its pages are there, so that its bytes do
/// not stand beside those of all pages.
pub fn put_whole(alloc: Global, set: &mut PageSet, laid: Vec<Laid>) -> Result<(), OutOfMemory>
    ensures put { OnOk result (set.new ≡ puts set.old (laid_pairs laid.items)) }
{
    for one in laid {
        put_laid(alloc, set, &one)?;
    }
    Ok(())
}

/// The same of chains that are wanted from then on.
pub fn put_all(alloc: Global, set: &mut PageSet, laid: &[Laid]) -> Result<(), OutOfMemory>
    ensures put { OnOk result (set.new ≡ puts set.old (laid_pairs laid.now)) }
{
    for one in laid {
        put_laid(alloc, set, one)?;
    }
    Ok(())
}

// Puts the pages of a chain.
fn put_laid(alloc: Global, set: &mut PageSet, one: &Laid) -> Result<(), OutOfMemory>
    ensures put { OnOk result (set.new
        ≡ puts set.old (chain_pairs one.now.number 0 one.now.pages one.now.bytes one.now.old one.now.same)) }
{
    let chain = Chain {
        owner: one.number,
        tail: 0,
        pages: one.pages.as_slice(),
        old: one.old.as_slice(),
        same: one.same.as_slice(),
    };
    put_chain(alloc, set, &chain, one.bytes.as_slice())
}

/// The pages of a chain: its number, the page behind the last, the pages, those that it had, and marks for those that
/// keep their bytes.
#[derive(Clone, Copy)]
pub struct Chain<'a> {
    pub owner: u32,
    pub tail: u64,
    pub pages: &'a [u64],
    pub old: &'a [u64],
    pub same: &'a [u8],
}

/// Puts the pages of a chain with these bytes, without those that stay.
pub fn put_chain(
    alloc: Global,
    set: &mut PageSet,
    chain: &Chain<'_>,
    bytes: &[u8],
) -> Result<(), OutOfMemory>
    ensures put { OnOk result (set.new
        ≡ puts set.old (chain_pairs chain.now.owner chain.now.tail chain.now.pages.now bytes.now chain.now.old.now chain.now.same.now)) }
{
    let mut rest = bytes;
    for place in 0..chain.pages.len() {
        let (held, later) = cut(rest);
        put_page(alloc, set, chain, place, held)?;
        rest = later;
    }
    Ok(())
}

/// What a page holds of these bytes, and the rest.
pub fn cut(bytes: &[u8]) -> (&[u8], &[u8])
    ensures held { result.0.now ≡ first_held bytes.now }
    ensures few { length result.0.now ≤ 4080 }
    ensures behind { result.1.now ≡ later_held bytes.now }
{
    bytes.split_at(bytes.len().min(HELD))
}

// Puts the page at a place of a chain, where it does not stay as it was.
fn put_page(
    alloc: Global,
    set: &mut PageSet,
    chain: &Chain<'_>,
    place: usize,
    held: &[u8],
) -> Result<(), OutOfMemory>
    requires place { place < length chain.now.pages.now }
    requires few { length held.now ≤ 4080 }
    ensures put { OnOk result (set.new ≡ cond
        (stays_so (slice_index chain.now.pages.now place) (head_or (drop (place + 1) chain.now.pages.now) chain.now.tail)
        (drop place chain.now.old.now) (drop place chain.now.same.now))
        set.old (map.insert set.old (slice_index chain.now.pages.now place)
        (link_page (head_or (drop (place + 1) chain.now.pages.now) chain.now.tail) chain.now.owner held.now))) }
{
    if is_kept(chain, place) {
        return Ok(());
    }
    let next = number_from(chain.pages, place + 1, chain.tail);
    set.put_owned(
        chain.pages[place],
        link_page(alloc, next, chain.owner, held)?,
    )
}

// Whether the page at a place of a chain stays as it was.
fn is_kept(chain: &Chain<'_>, place: usize) -> bool
    requires { place < length chain.now.pages.now }
    ensures { result ≡ stays_so (slice_index chain.now.pages.now place) (head_or (drop (place + 1) chain.now.pages.now) chain.now.tail)
        (drop place chain.now.old.now) (drop place chain.now.same.now) }
{
    let next = number_from(chain.pages, place + 1, chain.tail);
    if !stays(chain.old, place, chain.pages[place], next) {
        return false;
    }
    mark_at(chain.same, place) == 1
}

// The mark at a place, or 0 behind the end.
fn mark_at(marks: &[u8], place: usize) -> u8
    ensures { result ≡ head_or (drop place marks.now) 0 }
{
    match marks.get(place) {
        Some(mark) => *mark,
        None => 0,
    }
}

// Whether the page was at this place, before that one.
fn stays(old: &[u64], place: usize, page: u64, next: u64) -> bool
    requires { place + 1 < 18446744073709551616 }
    ensures { result ≡ ((head_or (drop place old.now) 0 == page) && (head_or (drop (place + 1) old.now) 0 == next)) }
{
    number_from(old, place, 0) == page && number_from(old, place + 1, 0) == next
}

// The number at a place, or another behind the end.
fn number_from(numbers: &[u64], place: usize, other: u64) -> u64
    ensures { result ≡ head_or (drop place numbers.now) other }
{
    match numbers.get(place) {
        Some(number) => *number,
        None => other,
    }
}

// A page of a chain, without the zeros behind what it holds.
fn link_page(alloc: Global, next: u64, owner: u32, held: &[u8]) -> Result<Vec<u8>, OutOfMemory>
    requires { length held.now ≤ 4080 }
    ensures few { IfOk result (λ page. length page.items ≤ 4096) }
    ensures page { IfOk result (λ page. padded page.items ≡ link_page next owner held.now) }
{
    let mut page = Vec::with_capacity(alloc, LINK + held.len())?;
    page.extend_from_slice(&next.to_le_bytes())?;
    page.extend_from_slice(&(held.len() as u32).to_le_bytes())?;
    page.extend_from_slice(&owner.to_le_bytes())?;
    page.extend_from_slice(held)?;
    Ok(page)
}
