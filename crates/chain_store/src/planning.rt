//! Which pages a commit writes.
ghost use Rattle.std.specs.Prelude.{◌≡◌, ◌+◌, ◌-◌, ◌≤◌, drop, length, map, take, IfOk, IfSome, OnOk};
ghost use Rattle.std.specs.List.{All};
ghost use Rattle.chain_store.specs.Firsts.{MayFill, filled};
ghost use Rattle.chain_store.specs.Parts.{growth, head_or, laid_all};

use crate::firsts::{fill_all, head_of, put_firsts, put_number};
use crate::gathering::directory_parts;
use crate::laying::{Chain, put_all, put_chain, put_whole};
use crate::layout::{
    BUCKETS_AT, CHANGES_AT, FIRSTS_AT, FORMAT_AT, FREE, FREE_AT, HOME_AT, STATE_AT,
};
use crate::parts::{Laid, Part, give_all, growth_all, lay_all, pool_of};
use crate::walking::Walked;
use crate::{Kept, Root};
use osm_base::OutOfMemory;
use page_journal::PageSet;
use std::alloc::Global;

/// The pages as they are dealt: those of the chains and of the directories, the pages that are free anew, the page
/// behind them, and how many home pages there are then.
#[derive(Drop)]
pub struct Dealt {
    pub chains: Vec<Laid>,
    pub directories: Vec<Laid>,
    pub left: Vec<u64>,
    pub tail: u64,
    pub end: u64,
}

/// The pages that may be dealt from the front on, how many of them were given up, how many are taken, by chains and
/// together, and how many home pages there are then.
#[derive(Drop)]
pub struct Pool {
    pub pages: Vec<u64>,
    pub given: usize,
    pub own: u64,
    pub taken: u64,
    pub end: u64,
}

impl Pool {
    ghost use Rattle.chain_store.specs.Plan.{IsPool};

    // The pages that these parts and directories give up, the free ones, and new ones behind `home`, as many as needed.
    fn of(
        alloc: Global,
        parts: &[Part],
        bases: &[Part],
        free: &[u64],
        home: u64,
    ) -> Result<Self, OutOfMemory>
        ensures { IfOk result (λ pool. IsPool parts.now bases.now free.now home pool) }
    {
        let mut spare = Vec::new(alloc);
        give_all(parts, &mut spare)?;
        give_all(bases, &mut spare)?;
        let given = spare.len();
        let Some(own) = growth_all(parts) else {
            return Err(OutOfMemory);
        };
        let Some(taken) = growth_with(own, bases) else {
            return Err(OutOfMemory);
        };
        let (pages, end) = pool_of(spare, free, home, taken)?;
        Ok(Pool {
            pages,
            given,
            own,
            taken,
            end,
        })
    }
}

impl Dealt {
    ghost use Rattle.chain_store.specs.Plan.{IsDealt, IsSmall, root_bytes, set_of};

    /// Deals pages to these parts and to the directories. The free ones are at hand, and `home` home pages are there.
    pub fn of(
        alloc: Global,
        parts: Vec<Part>,
        bases: Vec<Part>,
        count: usize,
        free: &[u64],
        home: u64,
    ) -> Result<Self, OutOfMemory>
        requires { All (MayFill count) bases.items }
        ensures { IfOk result (λ dealt. IsDealt parts.items bases.items count free.now home dealt) }
    {
        let pool = Pool::of(alloc, &parts, &bases, free, home)?;
        let chains = lay_all(alloc, parts, &pool.pages)?;
        let (_, rest) = pool.pages.split_at(pool.own as usize);
        let directories = lay_directories(alloc, bases, count, &chains, rest)?;
        Ok(Dealt {
            chains,
            directories,
            left: left_of(alloc, &pool.pages, pool.given, pool.taken)?,
            tail: tail_of(free, pool.given, pool.taken),
            end: pool.end,
        })
    }

    /// The root page with these fields, and with the first pages of the chains as they are dealt.
    pub fn root_page(
        &self,
        alloc: Global,
        front: &[u8],
        root: &Root,
    ) -> Result<Vec<u8>, OutOfMemory>
        requires { length front.now ≡ 4096 }
        ensures long { IfOk result (λ page. length page.items ≡ 4096) }
        ensures small { OnOk result (IsSmall root.now) }
        ensures page { IfOk result (λ page. page.items ≡ root_bytes front.now root.now self.now.«end»
            (head_or self.now.left.items self.now.tail) self.now.chains.items self.now.directories.items) }
    {
        let mut page = Vec::from_slice(alloc, front)?;
        put_number(&mut page, HOME_AT, self.end);
        put_number(&mut page, FORMAT_AT, root.format);
        put_number(&mut page, STATE_AT, root.state);
        put_number(&mut page, CHANGES_AT, root.changes);
        put_number(&mut page, BUCKETS_AT, root.buckets);
        put_number(&mut page, FREE_AT, first_or(&self.left, self.tail));
        put_firsts(&mut page, FIRSTS_AT, 0, 16, &self.chains);
        put_firsts(&mut page, FIRSTS_AT, 0, 16, &self.directories);
        Ok(page)
    }

    /// The pages that are written, this root page among them, and the directories.
    pub fn into_set(
        self,
        alloc: Global,
        front: Vec<u8>,
    ) -> Result<(PageSet, Vec<Laid>), OutOfMemory>
        requires { length front.items ≡ 4096 }
        ensures set { IfOk result (λ (set, directories). set
            ≡ set_of self.chains.items self.directories.items self.left.items self.tail front.items) }
        ensures directories { IfOk result (λ (set, directories). directories.items ≡ self.directories.items) }
    {
        let Dealt {
            chains,
            directories,
            left,
            tail,
            end: _,
        } = self;
        let mut set = PageSet::new(alloc);
        put_whole(alloc, &mut set, chains)?;
        put_all(alloc, &mut set, &directories)?;
        let free = Chain {
            owner: FREE,
            tail,
            pages: left.as_slice(),
            old: &[],
            same: &[],
        };
        put_chain(alloc, &mut set, &free, &[])?;
        set.put_owned(1, front)?;
        Ok((set, directories))
    }
}

/// What a commit writes: its pages, how many home pages there are then, and what is kept of the store.
#[derive(Drop)]
pub struct Plan {
    pub set: PageSet,
    pub home: u64,
    pub kept: Kept,
}

impl Plan {
    ghost use Rattle.chain_store.specs.Plan.{IsPlan};

    /// What it takes to give these parts their pages, and the store these fields.
    pub fn of(
        alloc: Global,
        kept: &Kept,
        root: &Root,
        parts: Vec<Part>,
        free: &[u64],
        home: u64,
    ) -> Result<Self, OutOfMemory>
        requires { root.now.buckets ≤ 65536 }
        ensures { IfOk result (λ plan. IsPlan kept.now root.now parts.items free.now home plan) }
    {
        let count = root.buckets as usize;
        let same = root.buckets == kept.root().buckets;
        let bases = directory_parts(alloc, kept.directories(), same, count)?;
        let dealt = Dealt::of(alloc, parts, bases, count, free, home)?;
        let page = dealt.root_page(alloc, kept.front(), root)?;
        let front = Vec::from_slice(alloc, &page)?;
        let home = dealt.end;
        let (set, laid) = dealt.into_set(alloc, page)?;
        let directories = directories_of(alloc, laid)?;
        Ok(Plan {
            set,
            home,
            kept: Kept::of(front, directories),
        })
    }
}

// Gives the directories their pages, with the first pages of these chains in them.
fn lay_directories(
    alloc: Global,
    bases: Vec<Part>,
    count: usize,
    chains: &[Laid],
    pool: &[u64],
) -> Result<Vec<Laid>, OutOfMemory>
    requires fill { All (MayFill count) bases.items }
    requires enough { growth bases.items ≤ length pool.now }
    ensures { IfOk result (λ laid. laid.items ≡ laid_all (map (filled count chains.now) bases.items) pool.now) }
{
    let directories = fill_all(alloc, bases, count, chains)?;
    lay_all(alloc, directories, pool)
}

// How many pages these parts take from the pool, and so many besides.
fn growth_with(own: u64, parts: &[Part]) -> Option<u64>
    ensures { IfSome result (λ total. total ≡ own + growth parts.now) }
{
    own.checked_add(growth_all(parts)?)
}

// The pages that were given up and not taken: those of the first `given` of the pool that are behind so many.
fn left_of(alloc: Global, pool: &[u64], given: usize, taken: u64) -> Result<Vec<u64>, OutOfMemory>
    requires { given ≤ length pool.now }
    ensures { IfOk result (λ left. left.items ≡ drop taken (take given pool.now)) }
{
    let spare = &pool[..given];
    if taken >= given as u64 {
        return Ok(Vec::new(alloc));
    }
    Ok(Vec::from_slice(alloc, &spare[taken as usize..])?)
}

// The first free page that is not taken, where so many are wanted and so many are given up.
fn tail_of(free: &[u64], given: usize, wanted: u64) -> u64
    ensures { result ≡ head_or (drop (wanted - given) free.now) 0 }
{
    let taken = wanted.saturating_sub(given as u64);
    if taken >= free.len() as u64 {
        return 0;
    }
    head_of(&free[taken as usize..])
}

// The first of these numbers, or another.
fn first_or(numbers: &[u64], other: u64) -> u64
    ensures { result ≡ head_or numbers.now other }
{
    match numbers.first() {
        Some(number) => *number,
        None => other,
    }
}

/// Directories as they are laid, as those of an open store.
pub fn directories_of(alloc: Global, laid: Vec<Laid>) -> Result<Vec<Walked>, OutOfMemory>
    ensures pages { IfOk result (λ directories. map (λ one. one.pages.items) directories.items ≡ map (λ one. one.pages) laid.items) }
    ensures bytes { IfOk result (λ directories. map (λ one. one.bytes.items) directories.items ≡ map (λ one. one.bytes) laid.items) }
{
    let mut directories = Vec::with_capacity(alloc, laid.len())?;
    for one in laid {
        directories.push(walked_of(one))?;
    }
    Ok(directories)
}

// A chain as it is laid, as one that was read.
fn walked_of(laid: Laid) -> Walked
    ensures pages { result.pages.items ≡ laid.pages }
    ensures bytes { result.bytes.items ≡ laid.bytes }
{
    let Laid {
        number: _,
        old: _,
        pages,
        same: _,
        bytes,
    } = laid;
    Walked {
        pages: pages.into_vec(),
        bytes: bytes.into_vec(),
    }
}
