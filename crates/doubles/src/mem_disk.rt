//! A disk in memory.
ghost use Rattle.std.specs.Prelude.{◌≡◌, ◌+◌, ◌-◌, ◌^◌, ◌<◌, ◌≤◌, [], ℕ, List, Some, true, false, if◌then◌else◌, length, option_map, is_err, is_ok, IfOk, OnOk, OnErr, IsErr, IsTrue};
ghost use Rattle.outside.specs.Bytes.{IsTold};
ghost use Rattle.outside.specs.Causes.{HasCause};
ghost use Rattle.outside.specs.Counts.{one_more};
ghost use Rattle.outside.specs.Disk.{Tells, Torn, ReadsFrom, Follows, NoneNew, Only, Elapses, overlaid, one_read, told_is};
ghost use Rattle.doubles.specs.declared.tape.Call.TheVariants.{Look, Sync, Write};
ghost use Rattle.doubles.specs.Tape.{since_counts_now, since_only_now};
ghost use Rattle.std.proofs.Common.{inl, sym, ◌∙◌};

use crate::calls::Calls;
use crate::recorded::Recorded;
use crate::{CrashPick, Fails};
use osm_base::{Bytes, OutOfMemory};
use outside::{Disk, Failed, MAX_LEN};
use std::alloc::{AllocError, Global};

/// A disk in memory that keeps every call, so that a crash in any of them can be tried. It fails at the
/// calls that a plan names and for want of memory, and nowhere else.
#[derive(Drop)]
pub struct MemDisk {
    recorded: Recorded,
    calls: Calls,
    reads: u64,
    reach: u64,
    short: bool,
}

impl MemDisk {
    ghost use Rattle.doubles.specs.MemDisk.{disk_bytes, disk_calls, disk_short, disk_view, first_content, kept_calls, IsCrashIn, MayBeLeftIn};

    /// A disk with these bytes, all of them stable.
    pub fn new(alloc: Global, bytes: Bytes, fails: Fails) -> Self
        requires { length bytes ≤ 2 ^ 62 }
        ensures bytes { disk_bytes result ≡ bytes }
        ensures stable { Only bytes (disk_view result).crashes }
        ensures calls { disk_calls result ≡ record { fails = fails; made = 0; failed = 0 } }
        ensures none { kept_calls result ≡ [] }
        ensures first { first_content result ≡ bytes }
        ensures reads { (disk_view result).reads ≡ Some (record { count = 0; reach = 0 }) }
        ensures not_short { disk_short result ≡ false }
    {
        Self {
            recorded: Recorded::new(alloc, bytes.into_vec()),
            calls: Calls::new(fails),
            reads: 0,
            reach: 0,
            short: false,
        }
    }

    /// The bytes that a read gives.
    pub fn bytes(&self) -> &[u8]
        ensures bytes { result.now ≡ disk_bytes self.now }
    {
        self.recorded.bytes()
    }

    /// How many calls were kept.
    pub fn calls(&self) -> u64
        ensures { result ≡ length (kept_calls self.now) }
    {
        self.recorded.calls() as u64
    }

    /// How many reads there were, of calls that were kept or not.
    pub fn reads(&self) -> u64
        ensures { option_map (λ log. log.count) (disk_view self.now).reads ≡ Some result }
    {
        self.reads
    }

    /// Whether a call has failed for want of memory.
    pub fn short(&self) -> bool
        ensures { result ≡ disk_short self.now }
    {
        self.short
    }

    /// The disk that a crash in the call with this number leaves. Calls are counted from 1.
    pub fn after_crash(
        &self,
        alloc: Global,
        call: u64,
        pick: CrashPick,
    ) -> Result<MemDisk, OutOfMemory>
        requires first { 0 < call }
        requires last { call ≤ length (kept_calls self.now) }
        ensures left { IfOk result (λ disk. IsCrashIn self.now call pick (disk_bytes disk)) }
        ensures outcome { IfOk result (λ disk. MayBeLeftIn self.now call (disk_bytes disk)) }
        ensures stable { IfOk result (λ disk. Only (disk_bytes disk) (disk_view disk).crashes) }
        ensures calls { IfOk result (λ disk. disk_calls disk ≡ record { fails = record { at = []; from = 0 }; made = 0; failed = 0 }) }
        ensures none { IfOk result (λ disk. kept_calls disk ≡ []) }
        ensures reads { IfOk result (λ disk. (disk_view disk).reads ≡ Some (record { count = 0; reach = 0 })) }
        ensures not_short { IfOk result (λ disk. disk_short disk ≡ false) }
    {
        let left = self.recorded.after_crash(alloc, call as usize, pick)?;
        if left.len() > MAX_LEN {
            return Err(OutOfMemory);
        }
        Ok(MemDisk::new(alloc, Bytes::from_vec(left), Fails::never(alloc)))
    }
}

// The answer of a call that has begun: it fails where the plan names it, and where it could not be kept.
fn answer(
    calls: &mut Calls,
    short: &mut bool,
    begun: Result<(), Failed>,
    kept: Result<(), AllocError>,
) -> Result<(), Failed>
    ensures failed { is_ok result ≡ (if is_ok begun then is_ok kept else false) }
    ensures calls { calls.new ≡ (if is_err begun then calls.old else (if is_err kept
        then record calls.old { failed = one_more calls.old.failed } else calls.old)) }
    ensures short { short.new ≡ (if is_err kept then true else short.old) }
    ensures later { calls.old.failed ≤ calls.new.failed }
{
    if kept.is_err() {
        *short = true;
        begun?;
        return Err(calls.fail());
    }
    begun
}

impl Disk for MemDisk {
    ghost use Rattle.doubles.specs.MemDisk.{disk_bytes, disk_view, Makes};

    ghost view = { disk_view };

    ghost reads_stay = { λ disk content told. inl (told_is (disk_bytes disk) content told ∙ sym disk.recorded.kept) };

    ghost counts_now = { λ disk since left le now. since_counts_now _ _ since left le now };

    ghost only_now = { λ disk left since. since_only_now _ _ left since };

    fn len(&mut self) -> Result<u64, Failed>
        ensures small { IfOk result (λ len. len ≤ 2 ^ 62) }
        ensures length { IfOk result (λ len. (content : List ℕ) → Tells (disk_view self.old) content → len ≡ length content) }
        ensures content { (disk_view self.new).content ≡ (disk_view self.old).content }
        ensures reads { (disk_view self.new).reads ≡ (disk_view self.old).reads }
        ensures crash { NoneNew (disk_view self.old).crashes (disk_view self.new).crashes }
        ensures time { Elapses (disk_view self.old).crashes (disk_view self.new).crashes }
        ensures cause { HasCause (disk_view self.old).faults (disk_view self.new).faults result }
        ensures made { Makes (λ _. Look) self.old self.new result }
    {
        let begun = self.calls.begin();
        let kept = self.recorded.look();
        answer(&mut self.calls, &mut self.short, begun, kept)?;
        Ok(self.recorded.bytes().len() as u64)
    }

    fn read_at(&mut self, at: u64, buf: &mut [u8]) -> Result<usize, Failed>
        requires { at + length buf.old ≤ 2 ^ 62 }
        ensures bound { IfOk result (λ count. count ≤ length buf.old) }
        ensures bytes { IfOk result (λ count. (content : List ℕ) → Tells (disk_view self.old) content
            → ReadsFrom at count content buf.old buf.new) }
        ensures content { (disk_view self.new).content ≡ (disk_view self.old).content }
        ensures reads { (disk_view self.new).reads ≡ option_map (one_read at (length buf.old)) (disk_view self.old).reads }
        ensures crash { NoneNew (disk_view self.old).crashes (disk_view self.new).crashes }
        ensures time { Elapses (disk_view self.old).crashes (disk_view self.new).crashes }
        ensures cause { HasCause (disk_view self.old).faults (disk_view self.new).faults result }
        ensures made { Makes (λ _. Look) self.old self.new result }
    {
        self.reads = self.reads.saturating_add(1);
        self.reach = self.reach.max(at + buf.len() as u64);
        let begun = self.calls.begin();
        let kept = self.recorded.look();
        answer(&mut self.calls, &mut self.short, begun, kept)?;
        Ok(copy_from(self.recorded.bytes(), at as usize, buf))
    }

    fn write_at(&mut self, at: u64, piece: &[u8]) -> Result<(), Failed>
        requires { at + length piece.now ≤ 2 ^ 62 }
        ensures written { OnOk result ((disk_view self.new).content ≡ option_map (overlaid at piece.now) (disk_view self.old).content) }
        ensures reads { (disk_view self.new).reads ≡ (disk_view self.old).reads }
        ensures crash { Follows (Torn at (length piece.now)) (disk_view self.old).crashes (disk_view self.new).crashes }
        ensures time { Elapses (disk_view self.old).crashes (disk_view self.new).crashes }
        ensures cause { HasCause (disk_view self.old).faults (disk_view self.new).faults result }
        ensures told { IsTold (disk_view self.old).content → IsTold (disk_view self.new).content }
        ensures failed { OnErr result ((disk_view self.new).content ≡ (disk_view self.old).content) }
        ensures made { Makes (Write at piece.now) self.old self.new result }
    {
        let begun = self.calls.begin();
        let kept = if begun.is_ok() {
            self.recorded.write(at, piece)
        } else {
            self.recorded.refuse(at, piece)
        };
        answer(&mut self.calls, &mut self.short, begun, kept)?;
        Ok(())
    }

    fn sync(&mut self) -> Result<(), Failed>
        ensures durable { OnOk result ((content : List ℕ) → Tells (disk_view self.old) content → Only content (disk_view self.new).crashes) }
        ensures content { (disk_view self.new).content ≡ (disk_view self.old).content }
        ensures reads { (disk_view self.new).reads ≡ (disk_view self.old).reads }
        ensures crash { NoneNew (disk_view self.old).crashes (disk_view self.new).crashes }
        ensures time { Elapses (disk_view self.old).crashes (disk_view self.new).crashes }
        ensures cause { HasCause (disk_view self.old).faults (disk_view self.new).faults result }
        ensures made { Makes Sync self.old self.new result }
    {
        let begun = self.calls.begin();
        let kept = self.recorded.sync(begun.is_ok());
        answer(&mut self.calls, &mut self.short, begun, kept)?;
        Ok(())
    }
}

// Moves bytes from this place on to the front of the buffer.
fn copy_from(bytes: &[u8], at: usize, buf: &mut [u8]) -> usize
    ensures bound { result ≤ length buf.old }
    ensures bytes { ReadsFrom at result bytes.now buf.old buf.new }
{
    let (_, rest) = bytes.split_at(at.min(bytes.len()));
    let count = rest.len().min(buf.len());
    buf[..count].copy_from_slice(&rest[..count]);
    count
}
