//! The chains that a commit writes.
ghost use Rattle.std.specs.Prelude.{◌≡◌, ◌+◌, ◌-◌, ◌^◌, ◌<◌, ◌≤◌, ◌++◌, length, take, IfOk, IfSome, OnOk};
ghost use Rattle.chain_store.specs.Parts.{dealt, given, given_by, growth, growth_of, laid_all, laid_of, pages_for, up_from};

use crate::layout::HELD;
use osm_base::{Bytes, Ids, OutOfMemory};
use std::alloc::Global;

/// A chain that a commit writes: its number, the pages that it had, the bytes that it had where it is a directory, marks
/// for the pages that keep their bytes, and its new bytes.
#[derive(Drop)]
pub struct Part {
    pub number: u32,
    pub old: Ids,
    pub before: Bytes,
    pub same: Bytes,
    pub bytes: Bytes,
}

/// The same, with the pages that it has from then on.
#[derive(Drop)]
pub struct Laid {
    pub number: u32,
    pub old: Ids,
    pub pages: Ids,
    pub same: Bytes,
    pub bytes: Bytes,
}

/// How many pages these bytes need.
pub fn page_count(bytes: &[u8]) -> usize
    ensures { result ≡ pages_for (length bytes.now) }
{
    let whole = bytes.len() / HELD;
    if bytes.len() % HELD == 0 {
        whole
    } else {
        whole + 1
    }
}

// How many pages a part takes from the pool.
fn growth_of(part: &Part) -> usize
    ensures { result ≡ growth_of part.now }
{
    page_count(part.bytes.as_slice()).saturating_sub(part.old.as_slice().len())
}

/// How many pages these parts take from the pool. `None`: more than there are numbers.
pub fn growth_all(parts: &[Part]) -> Option<u64>
    ensures { IfSome result (λ total. total ≡ growth parts.now) }
{
    let mut total = 0u64;
    for part in parts {
        total = total.checked_add(growth_of(part) as u64)?;
    }
    Some(total)
}

/// Adds the pages that these parts give up.
pub fn give_all(parts: &[Part], spare: &mut Vec<u64>) -> Result<(), OutOfMemory>
    ensures { OnOk result (spare.new.items ≡ spare.old.items ++ given parts.now) }
{
    for part in parts {
        spare.extend_from_slice(given_by(part))?;
    }
    Ok(())
}

// The pages that a part gives up.
fn given_by(part: &Part) -> &[u64]
    ensures { result.now ≡ given_by part.now }
{
    let old = part.old.as_slice();
    let need = page_count(part.bytes.as_slice());
    if need < old.len() { &old[need..] } else { &[] }
}

/// The pages that parts may take: those that are given up, the free ones, and then new ones behind the end, as many as
/// are needed besides; and the number of home pages then.
pub fn pool_of(
    spare: Vec<u64>,
    free: &[u64],
    home: u64,
    growth: u64,
) -> Result<(Vec<u64>, u64), OutOfMemory>
    ensures pool { IfOk result (λ (pool, end). pool.items
        ≡ spare.items ++ free.now ++ up_from home (growth - (length spare.items + length free.now))) }
    ensures small { IfOk result (λ (pool, end). end < 2 ^ 64) }
    ensures end { IfOk result (λ (pool, end). end ≡ home + (growth - (length spare.items + length free.now))) }
{
    let mut pool = spare;
    pool.extend_from_slice(free)?;
    let more = growth.saturating_sub(pool.len() as u64);
    let Some(end) = home.checked_add(more) else {
        return Err(OutOfMemory);
    };
    for page in home..end {
        pool.push(page)?;
    }
    Ok((pool, end))
}

/// Gives each of these parts its pages, one after another.
pub fn lay_all(alloc: Global, parts: Vec<Part>, pool: &[u64]) -> Result<Vec<Laid>, OutOfMemory>
    requires { growth parts.items ≤ length pool.now }
    ensures { IfOk result (λ laid. laid.items ≡ laid_all parts.items pool.now) }
{
    let mut laid = Vec::with_capacity(alloc, parts.len())?;
    let mut rest = pool;
    for part in parts {
        let taken = growth_of(&part);
        let (here, after) = rest.split_at(taken);
        laid.push(lay(alloc, part, here)?)?;
        rest = after;
    }
    Ok(laid)
}

// A part with its own pages, as far as it needs them, and with these.
fn lay(alloc: Global, part: Part, taken: &[u64]) -> Result<Laid, OutOfMemory>
    requires { length taken.now ≡ growth_of part }
    ensures { IfOk result (λ laid. laid ≡ laid_of part (dealt part taken.now)) }
{
    let Part {
        number,
        old,
        before: _,
        same,
        bytes,
    } = part;
    let pages = dealt(alloc, old.as_slice(), page_count(bytes.as_slice()), taken)?;
    Ok(Laid {
        number,
        old,
        pages,
        same,
        bytes,
    })
}

// The first of these pages, as many as are needed, and then those.
fn dealt(alloc: Global, old: &[u64], need: usize, taken: &[u64]) -> Result<Ids, OutOfMemory>
    requires { length taken.now ≡ need - length old.now }
    ensures { IfOk result (λ pages. pages ≡ take need (old.now ++ taken.now)) }
{
    let mut pages = Vec::with_capacity(alloc, need)?;
    pages.extend_from_slice(&old[..need.min(old.len())])?;
    pages.extend_from_slice(taken)?;
    Ok(Ids::from_vec(pages))
}
