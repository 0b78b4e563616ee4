//! A lot of a file whose lines were read, and wait to be put behind those before.
ghost use Rattle.std.specs.Prelude.{◌≡◌, ◌<◌, ◌≤◌, ◌∷◌, ◌++◌, ℕ, [], IfOk, OnOk, flat_map, length, drop};
ghost use Rattle.std.specs.List.{AllZip};
ghost use Rattle.std.specs.Thread.{IsSync};
ghost use Rattle.osm_base.specs.declared.bounds.limits.LimitNumbers.{LimitNumbers};
ghost use Rattle.opl_files.specs.Ahead.{ReadsAhead};
ghost use Rattle.opl_files.specs.Lots.{Gives, IsReady};
ghost use Rattle.opl_files.specs.Parts.{AreShares, GoesOn, IsShareOf, bytes_in, none_passed};

use crate::FileFault;
use crate::ahead::Ahead;
use crate::parts::{Share, give_shares, read_share};
use crate::passed::Passed;
use crate::share_out::{leave_out, piece_end, pieces_of};
use object_fold::{Keeper, WorkerCount};
use osm_base::{Entry, Limits, OutOfMemory};
use outside::Inputs;
use std::alloc::Global;
use std::mem;
use std::thread::{Threads, join_mut};

/// The lines that were taken, and bytes behind them of which no line was taken yet, and their shares. No lot waits: both are empty.
#[derive(Drop)]
pub struct Waiting {
    pub alloc: Global,
    pub passed: Passed,
    pub bytes: Vec<u8>,
    pub shares: Vec<Share>,
    /// What the keeper has not kept of the lot before.
    pub left: Vec<Vec<Entry>>,
}

impl Waiting {
    /// No lot, and no line before it.
    pub fn new(alloc: Global) -> Self
        ensures passed { result.passed ≡ none_passed }
        ensures bytes { result.bytes.items ≡ [] }
        ensures shares { result.shares.items ≡ [] }
    {
        Self {
            alloc,
            passed: Passed::new(),
            bytes: Vec::new(alloc),
            shares: Vec::new(alloc),
            left: Vec::new(alloc),
        }
    }

    /// Gives a keeper the entries of the shares, up to the first that may not stand behind the lines that were passed, and answers how
    /// many bytes were taken. No share waits any longer.
    pub fn give<K: Keeper>(&mut self, limits: &Limits, keeper: &mut K) -> Result<usize, OutOfMemory>
        requires goes { GoesOn K.takes limits.now self.old.passed keeper.old }
        requires shares { AreShares limits.now self.old.bytes.items self.old.shares.items }
        ensures given { IfOk result (λ used. Gives K.takes K.after limits.now self.old keeper.old used self.new keeper.new) }
    {
        let shares = mem::replace(&mut self.shares, Vec::new(self.alloc));
        give_shares(
            limits,
            &mut self.passed,
            keeper,
            &self.bytes,
            shares,
            &mut self.left,
        )
    }

    /// Lets a lot wait with its shares, up to where these end, if none waits. What does not wait, in the room of the lot before.
    pub fn put_aside(
        &mut self,
        mut lot: Vec<u8>,
        shares: Vec<Share>,
    ) -> Result<Vec<u8>, OutOfMemory>
        requires none { self.old.shares.items ≡ [] }
        requires few { bytes_in shares.items ≤ length lot.items }
        ensures passed { OnOk result (self.new.passed ≡ self.old.passed) }
        ensures bytes { IfOk result (λ rest. self.new.bytes.items ++ rest.items ≡ self.old.bytes.items ++ lot.items) }
        ensures shares { OnOk result ((limits : LimitNumbers) → AreShares limits lot.items shares.items
            → AreShares limits self.new.bytes.items self.new.shares.items) }
        ensures few { OnOk result ((most : ℕ) → length self.old.bytes.items ≤ most → length lot.items ≤ most
            → length self.new.bytes.items ≤ most) }
        ensures less { IfOk result (λ rest. length rest.items ≤ length lot.items) }
    {
        // A share may not stand where it would: one reader goes on from there.
        if !self.bytes.is_empty() {
            return Ok(lot);
        }
        let rest = behind(&lot, &shares);
        let covered = lot.len() - rest.len();
        let mut room = mem::replace(&mut self.bytes, Vec::new(self.alloc));
        room.extend_from_slice(rest)?;
        lot.truncate(covered);
        self.bytes = lot;
        self.shares = shares;
        Ok(room)
    }
}

/// The bytes behind these shares.
pub fn behind<'a>(bytes: &'a [u8], shares: &[Share]) -> &'a [u8]
    requires within { bytes_in shares.now ≤ length bytes.now }
    ensures rest { result.now ≡ drop (bytes_in shares.now) bytes.now }
{
    let mut rest = bytes;
    let mut left = shares;
    while let Some((share, more)) = left.split_first() {
        rest = &rest[share.len..];
        left = more;
    }
    rest
}

/// How many bytes of a lot are read by the worker that gives the entries of the lot before it, if there is one, and reads the next ahead.
fn own_len(lot: usize, workers: WorkerCount, is_first: bool) -> usize {
    if is_first {
        return lot / workers.count as usize;
    }
    // To put a lot behind takes about a ninth of what it takes to read one.
    let others = (workers.count - 1) as usize;
    lot.saturating_sub((lot / 9).saturating_mul(others)) / workers.count as usize
}

/// Lets go of these entries, and answers the room that the last of them had.
fn emptied(alloc: Global, garbage: &mut [Vec<Entry>]) -> Vec<Entry>
    ensures empty { result.items ≡ [] }
{
    let mut room = Vec::new(alloc);
    for share in garbage {
        share.clear();
        room = mem::replace(share, Vec::new(alloc));
    }
    room
}

/// This share alone.
fn one_share(alloc: Global, share: Share) -> Result<Vec<Share>, OutOfMemory>
    ensures one { IfOk result (λ shares. shares.items ≡ share ∷ []) }
{
    let mut shares = Vec::new(alloc);
    shares.push(share)?;
    Ok(shares)
}

/// A lot in pieces, one for each worker. The first is for the one that gives what waits to the keeper.
fn pieces_beside<'a>(
    waiting: &Waiting,
    bytes: &'a [u8],
    workers: WorkerCount,
    lot: usize,
) -> Result<Vec<&'a [u8]>, OutOfMemory>
    ensures whole { IfOk result (λ pieces. flat_map (λ piece. piece.now) pieces.items ≡ bytes.now) }
{
    let own = own_len(lot, workers, waiting.shares.is_empty());
    let (front, rest) = bytes.split_at(piece_end(bytes, own));
    let others = WorkerCount {
        count: (workers.count - 1).max(1),
    };
    let least = lot.saturating_sub(own) / others.count as usize;
    let mut pieces = Vec::new(waiting.alloc);
    pieces.push(front)?;
    pieces.append(&mut pieces_of(waiting.alloc, rest, others, least)?)?;
    Ok(pieces)
}

/// Gives a keeper the entries of the lot that waits, and reads the next one ahead. How many bytes of the one that waited were taken.
fn give_and_fill<I: Inputs, K: Keeper>(
    limits: &Limits,
    waiting: &mut Waiting,
    keeper: &mut K,
    ahead: &mut Ahead,
    inputs: &mut I,
    file: u32,
) -> Result<usize, FileFault>
    requires ready { IsReady K.takes limits.now waiting.old keeper.old ahead.old }
    ensures given { IfOk result (λ used. Gives K.takes K.after limits.now waiting.old keeper.old used waiting.new keeper.new) }
    ensures ahead { ReadsAhead result ahead.old ahead.new file (λ asked. I.reads inputs.old asked inputs.new)
        (I.view inputs.old) (I.view inputs.new) }
{
    let used = waiting.give(limits, keeper)?;
    ahead.fill(inputs, file)?;
    Ok(used)
}

/// Reads each of these pieces of a lot, all but the first by a thread of its own, while this one gives a keeper the entries of the lot that
/// waits, reads the next one ahead, and then reads the first. Before that each lets go of one share of the garbage. How many bytes of the
/// one that waited were taken, and the shares of the pieces.
fn read_with_others<I: Inputs, R: Threads + Sync, K: Keeper>(
    rt: &R,
    limits: &Limits,
    pieces: &[&[u8]],
    garbage: &mut [Vec<Entry>],
    waiting: &mut Waiting,
    keeper: &mut K,
    ahead: &mut Ahead,
    inputs: &mut I,
    file: u32,
) -> (Result<usize, FileFault>, Result<Vec<Share>, OutOfMemory>)
    requires ready { IsReady K.takes limits.now waiting.old keeper.old ahead.old }
    ensures given { IfOk result.0 (λ used. Gives K.takes K.after limits.now waiting.old keeper.old used waiting.new keeper.new) }
    ensures ahead { ReadsAhead result.0 ahead.old ahead.new file (λ asked. I.reads inputs.old asked inputs.new)
        (I.view inputs.old) (I.view inputs.new) }
    ensures shares { IfOk result.1 (λ shares. AllZip (λ piece share. IsShareOf limits.now piece.now share) pieces.now shares.items) }
{
    let alloc = waiting.alloc;
    let Some((last, others)) = pieces.split_last() else {
        let given = give_and_fill(limits, waiting, keeper, ahead, inputs, file);
        return (given, Ok(Vec::new(alloc)));
    };
    if others.is_empty() {
        let room = emptied(alloc, garbage);
        let given = give_and_fill(limits, waiting, keeper, ahead, inputs, file);
        return (
            given,
            one_share(alloc, read_share(alloc, limits, *last, room)),
        );
    }
    let (rest, own) = garbage.split_at_mut(garbage.len().saturating_sub(1));
    // Threads that are made by new threads wait behind these on one processor, so this one makes them all.
    let (share, (given, read)) = join_mut(
        rt,
        &mut || -> Share
            ensures { IsShareOf limits.entry.now last.entry.now.now result }
        {
            let room = emptied(alloc, own);
            read_share(alloc, limits, *last, room)
        },
        &mut || -> (Result<usize, FileFault>, Result<Vec<Share>, OutOfMemory>)
            requires { IsSync R.row × IsReady K.takes limits.now waiting.now keeper.now ahead.now }
            ensures { IfOk result.0 (λ used. Gives K.takes K.after limits.entry.now waiting.entry.now keeper.entry.now used waiting.exit.now keeper.exit.now)
                × ReadsAhead result.0 ahead.entry.now ahead.exit.now file (λ asked. I.reads inputs.entry.now asked inputs.exit.now)
                (I.view inputs.entry.now) (I.view inputs.exit.now)
                × IfOk result.1 (λ shares. AllZip (λ piece share. IsShareOf limits.entry.now piece.now share) others.entry.now shares.items) }
        {
            read_with_others(
                rt, limits, others, rest, waiting, keeper, ahead, inputs, file,
            )
        },
    );
    let Ok(mut shares) = read else {
        return (given, Err(OutOfMemory));
    };
    match shares.push(share) {
        Ok(()) => (given, Ok(shares)),
        Err(_) => (given, Err(OutOfMemory)),
    }
}

/// Reads a lot by so many workers, of whom one first gives a keeper the entries of the lot that waits and reads the next one ahead. How
/// many bytes of the one that waited were taken, and the shares of the other.
pub fn read_beside<I: Inputs, R: Threads + Sync, K: Keeper>(
    rt: &R,
    limits: &Limits,
    bytes: &[u8],
    workers: WorkerCount,
    waiting: &mut Waiting,
    keeper: &mut K,
    ahead: &mut Ahead,
    inputs: &mut I,
    file: u32,
) -> Result<(usize, Vec<Share>), FileFault>
    requires ready { IsReady K.takes limits.now waiting.old keeper.old ahead.old }
    ensures given { IfOk result (λ read. Gives K.takes K.after limits.now waiting.old keeper.old read.0 waiting.new keeper.new) }
    ensures ahead { ReadsAhead result ahead.old ahead.new file (λ asked. I.reads inputs.old asked inputs.new)
        (I.view inputs.old) (I.view inputs.new) }
    ensures shares { IfOk result (λ read. AreShares limits.now bytes.now read.1.items) }
{
    let pieces = pieces_beside(waiting, bytes, workers, ahead.lot)?;
    // Any thread may let go of it, so the readers of this lot share that work.
    let mut garbage = mem::replace(&mut waiting.left, Vec::new(waiting.alloc));
    let (given, read) = read_with_others(
        rt,
        limits,
        &pieces,
        &mut garbage,
        waiting,
        keeper,
        ahead,
        inputs,
        file,
    );
    let used = given?;
    let mut shares = read?;
    leave_out(&pieces, &mut shares);
    Ok((used, shares))
}
