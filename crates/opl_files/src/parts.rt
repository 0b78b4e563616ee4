//! Whole lines of a file that are read apart from those before them.
ghost use Rattle.std.specs.Prelude.{◌≡◌, ◌<◌, ◌≤◌, ◌+◌, ◌↔◌, ◌∷◌, ◌++◌, [], ℕ, List, None, IfOk, IfSome, IsNone, IsTrue, OnOk, length, take, drop};
ghost use Rattle.std.specs.Bool.{OnTrue, OnFalse};
ghost use Rattle.std.specs.List.{cons_option};
ghost use Rattle.object_fold.specs.Change.{FollowsAll, last_key};
ghost use Rattle.opl_files.specs.Parts.{AreShares, GoesOn, IsPart, TakesLines, none_passed};
ghost use Rattle.opl_files.specs.Passed.{line_fault, spelled};
ghost use Rattle.opl_files.specs.Progress.{passed_line};
ghost use Rattle.object_fold.specs.Keeps.{TakesNext};

use crate::heap::{SHARE_HEAP, grow_heap};
use crate::passed::Passed;
use crate::progress::add_line;
use object_fold::{Change, Keeper};
use opl_lines::first_line;
use osm_base::{Entry, Key, Limits, OutOfMemory};
use std::alloc::Global;

/// What lines were read as: what stands before a line behind them, and their entries.
#[derive(Drop)]
pub struct Part {
    pub passed: Passed,
    pub change: Change,
}

/// A front of some bytes that was read apart, and how many bytes it has.
#[derive(Drop)]
pub struct Share {
    pub len: usize,
    pub part: Part,
}

impl Part {
    /// No line.
    pub fn new(alloc: Global) -> Self
        ensures empty { result ≡ record { passed = none_passed; change = [] } }
    {
        Self {
            passed: Passed::new(),
            change: Change::new(alloc),
        }
    }

    /// No line. Entries will stand in this room.
    fn over(room: Vec<Entry>) -> Self
        ensures empty { result ≡ record { passed = none_passed; change = [] } }
    {
        Self {
            passed: Passed::new(),
            change: Change::over(room),
        }
    }

    /// Adds a line, where it has no fault and there is memory.
    fn add(&mut self, alloc: Global, limits: &Limits, line: &[u8]) -> bool
        requires last { self.old.passed.last ≡ last_key None self.old.change }
        ensures fault { OnTrue result (line_fault limits.now self.old.passed line.now ≡ None) }
        ensures passed { OnTrue result (self.new.passed ≡ passed_line self.old.passed (spelled line.now)) }
        ensures change { OnTrue result (self.new.change ≡ self.old.change ++ cons_option (spelled line.now) []) }
    {
        if self.passed.lines >= limits.lines() || line.len() as u64 > limits.line_bytes() {
            return false;
        }
        match add_line(alloc, limits, &mut self.passed, &mut self.change, line) {
            Ok(()) => true,
            Err(_) => false,
        }
    }
}

/// The key of the last entry, where these lines stand behind those that were passed.
fn last_behind(passed: &Passed, part: &Part) -> Option<Key>
    ensures last { result ≡ last_key passed.now.last part.now.change }
{
    match part.change.entries().split_last() {
        Some((entry, _front)) => Some(entry.key),
        None => passed.last,
    }
}

/// Gives a keeper the entries of lines that were read apart, where their keys and their numbers allow that they stand behind those that
/// were passed, and answers what it does not keep of them. `None`: nothing has changed.
fn give_part<K: Keeper>(
    limits: &Limits,
    passed: &mut Passed,
    keeper: &mut K,
    more: Part,
) -> Result<Option<Vec<Entry>>, OutOfMemory>
    requires goes { GoesOn K.takes limits.now passed.old keeper.old }
    ensures lines { IfOk result (λ left. IfSome left (λ _. (bytes : List ℕ) → IsPart limits.now bytes more
        → TakesLines K.after limits.now passed.old keeper.old bytes passed.new keeper.new [])) }
    ensures none { IfOk result (λ left. IsNone left → (passed.new ≡ passed.old) × (keeper.new ≡ keeper.old)) }
    ensures goes { OnOk result (GoesOn K.takes limits.now passed.new keeper.new) }
{
    if !fits_behind(limits, passed, &more) {
        return Ok(None);
    }
    // No limit is above that of the program, so both counts fit.
    let _numbers = limits.numbers();
    let last = last_behind(passed, &more);
    let Part {
        passed: own,
        change,
    } = more;
    let left = keeper.keep_all(passed.last, change.into_entries())?;
    passed.last = last;
    passed.lines += own.lines;
    passed.entries += own.entries;
    Ok(Some(left))
}

/// Gives a keeper the entries of shares of these bytes, up to the first that may not stand behind the lines that were passed, and answers
/// how many bytes were taken. What it does not keep of the entries is put behind `left`.
pub fn give_shares<K: Keeper>(
    limits: &Limits,
    passed: &mut Passed,
    keeper: &mut K,
    bytes: &[u8],
    shares: Vec<Share>,
    left: &mut Vec<Vec<Entry>>,
) -> Result<usize, OutOfMemory>
    requires goes { GoesOn K.takes limits.now passed.old keeper.old }
    requires shares { AreShares limits.now bytes.now shares.items }
    ensures within { IfOk result (λ used. used ≤ length bytes.now) }
    ensures lines { IfOk result (λ used. TakesLines K.after limits.now passed.old keeper.old (take used bytes.now) passed.new keeper.new []) }
    ensures goes { OnOk result (GoesOn K.takes limits.now passed.new keeper.new) }
{
    let mut used = 0;
    for Share { len, part } in shares {
        let Some(rest) = give_part(limits, passed, keeper, part)? else {
            break;
        };
        left.push(rest)?;
        used += len;
    }
    Ok(used)
}

impl Share {
    /// No byte.
    fn none(alloc: Global) -> Self
        ensures empty { result ≡ record { len = 0; part = record { passed = none_passed; change = [] } } }
    {
        Self {
            len: 0,
            part: Part::new(alloc),
        }
    }
}

/// The lines that end in these bytes, read apart from all before them; none where one of them has a fault or memory runs out. Their entries
/// stand in this room.
pub fn read_share(alloc: Global, limits: &Limits, bytes: &[u8], room: Vec<Entry>) -> Share
    requires empty { room.items ≡ [] }
    ensures within { result.len ≤ length bytes.now }
    ensures part { IsPart limits.now (take result.len bytes.now) result.part }
{
    grow_heap(alloc, SHARE_HEAP);
    let mut part = Part::over(room);
    let mut rest = bytes;
    while let Some((line, behind)) = first_line(rest) {
        if !part.add(alloc, limits, line) {
            return Share::none(alloc);
        }
        rest = behind;
    }
    Share {
        len: bytes.len() - rest.len(),
        part,
    }
}

/// Whether lines that were read apart may stand behind those that were passed.
fn fits_behind(limits: &Limits, passed: &Passed, part: &Part) -> bool
    ensures lines { OnTrue result (passed.now.lines + part.now.passed.lines ≤ limits.now.lines) }
    ensures entries { OnTrue result (passed.now.entries + length part.now.change ≤ limits.now.entries) }
    ensures counted { OnTrue result (passed.now.entries + part.now.passed.entries ≤ limits.now.entries) }
    ensures follows { OnTrue result (FollowsAll passed.now.last part.now.change) }
{
    let entries = part.change.entries();
    is_within(passed.lines, part.passed.lines, limits.lines())
        && is_within(passed.entries, entries.len() as u64, limits.entries())
        && is_within(passed.entries, part.passed.entries, limits.entries())
        && follows(passed.last, entries)
}

/// Whether two numbers together are no more than a third.
fn is_within(one: u64, other: u64, most: u64) -> bool
    ensures within { IsTrue result ↔ (one + other ≤ most) }
{
    one <= most && other <= most - one
}

/// Whether the first of these entries comes after this key.
fn follows(last: Option<Key>, entries: &[Entry]) -> bool
    ensures follows { OnTrue result (FollowsAll last entries.now) }
{
    match (last, entries.first()) {
        (Some(earlier), Some(entry)) => earlier < entry.key,
        _ => true,
    }
}
