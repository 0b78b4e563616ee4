//! The disk on which a store lies.
ghost use Rattle.std.specs.Prelude.{◌≡◌, ℕ, ◌+◌, ◌^◌, ◌≤◌, List, length, option_map, IfOk, OnOk};
ghost use Rattle.outside.specs.Bytes.{IsTold};
ghost use Rattle.outside.specs.Causes.{HasCause};
ghost use Rattle.outside.specs.Disk.{DiskView, Tells, Torn, ReadsFrom, Follows, NoneNew, Only, Elapses, overlaid, one_read};

use crate::Failed;

/// The most bytes that a disk holds.
pub const MAX_LEN: usize = 1 << 62;

/// Bytes that are read and written at any place, and that a crash may damage until they are synced.
pub trait Disk {
    /// What a read gives, what a crash may leave, the count of faults, and the reads.
    ghost view: { Self → DiskView };

    /// How many bytes there are.
    fn len(&mut self) -> Result<u64, Failed>
        ensures small { IfOk result (λ len. len ≤ 2 ^ 62) }
        ensures length { IfOk result (λ len. (content : List ℕ) → Tells (view self.old) content → len ≡ length content) }
        ensures content { (view self.new).content ≡ (view self.old).content }
        ensures reads { (view self.new).reads ≡ (view self.old).reads }
        ensures crash { NoneNew (view self.old).crashes (view self.new).crashes }
        ensures time { Elapses (view self.old).crashes (view self.new).crashes }
        ensures cause { HasCause (view self.old).faults (view self.new).faults result };

    /// Moves the bytes from this place on to the front of the buffer, as many as stand there or fit, and
    /// answers how many.
    fn read_at(&mut self, at: u64, buf: &mut [u8]) -> Result<usize, Failed>
        requires { at + length buf.old ≤ 2 ^ 62 }
        ensures bound { IfOk result (λ count. count ≤ length buf.old) }
        ensures bytes { IfOk result (λ count. (content : List ℕ) → Tells (view self.old) content
            → ReadsFrom at count content buf.old buf.new) }
        ensures content { (view self.new).content ≡ (view self.old).content }
        ensures reads { (view self.new).reads ≡ option_map (one_read at (length buf.old)) (view self.old).reads }
        ensures crash { NoneNew (view self.old).crashes (view self.new).crashes }
        ensures time { Elapses (view self.old).crashes (view self.new).crashes }
        ensures cause { HasCause (view self.old).faults (view self.new).faults result };

    /// Writes over what is there, and past the end. Until a sync, a crash may leave any bytes in the range,
    /// also where the write has failed.
    fn write_at(&mut self, at: u64, piece: &[u8]) -> Result<(), Failed>
        requires { at + length piece.now ≤ 2 ^ 62 }
        ensures written { OnOk result ((view self.new).content ≡ option_map (overlaid at piece.now) (view self.old).content) }
        ensures told { IsTold (view self.old).content → IsTold (view self.new).content }
        ensures reads { (view self.new).reads ≡ (view self.old).reads }
        ensures crash { Follows (Torn at (length piece.now)) (view self.old).crashes (view self.new).crashes }
        ensures time { Elapses (view self.old).crashes (view self.new).crashes }
        ensures cause { HasCause (view self.old).faults (view self.new).faults result };

    /// After it, a crash leaves what a read gives.
    fn sync(&mut self) -> Result<(), Failed>
        ensures durable { OnOk result ((content : List ℕ) → Tells (view self.old) content → Only content (view self.new).crashes) }
        ensures content { (view self.new).content ≡ (view self.old).content }
        ensures reads { (view self.new).reads ≡ (view self.old).reads }
        ensures crash { NoneNew (view self.old).crashes (view self.new).crashes }
        ensures time { Elapses (view self.old).crashes (view self.new).crashes }
        ensures cause { HasCause (view self.old).faults (view self.new).faults result };

    /// What a read gives is among what a crash now may leave.
    ghost reads_stay: { (disk : Self) (content : List ℕ) → Tells (view disk) content → (view disk).crashes.outcomes content };

    /// Now is a moment of those since an earlier one.
    ghost counts_now: { (disk : Self) (since : ℕ) (left : List ℕ) → since ≤ (view disk).crashes.moment
        → (view disk).crashes.outcomes left → (view disk).crashes.outcomes_since since left };

    /// Since now there is no other moment.
    ghost only_now: { (disk : Self) (left : List ℕ) → (view disk).crashes.outcomes_since (view disk).crashes.moment left
        → (view disk).crashes.outcomes left };
}
