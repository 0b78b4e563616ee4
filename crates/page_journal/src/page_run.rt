//! Pages that lie one behind the other, held back so that they go to the disk in one call.
ghost use Rattle.std.specs.Prelude.{◌≡◌, ◌⊎◌, ◌+◌, ◌^◌, ◌≤◌, ◌++◌, List, ℕ, length, take, IsTrue, OnOk};
ghost use Rattle.outside.specs.Disk.{Tells, overlaid};
ghost use Rattle.page_journal.specs.DiskCalls.{WritesDiskOnce};
ghost use Rattle.page_journal.specs.PageRun.{Fits, Grows, Shows};
ghost use Rattle.page_journal.specs.PageSet.{padded};

use crate::layout::{PAGE, RUN};
use outside::{Disk, Failed};

/// The bytes that are held back, how many there are, and where they go.
#[derive(Drop)]
pub struct PageRun {
    pub(crate) bytes: [u8; RUN],
    pub(crate) filled: usize,
    pub(crate) at: u64,
}

impl PageRun {
    /// None yet, in front of the pages that go there.
    pub fn new(at: u64) -> Self
        requires { at ≤ 2 ^ 62 }
        ensures fits { Fits result.at result.filled result.bytes }
        ensures none { result.filled ≡ 0 }
        ensures place { result.at ≡ at }
    {
        Self {
            bytes: [0; RUN],
            filled: 0,
            at,
        }
    }
}

/// Holds back a page that goes there, with zeros behind these bytes. What is held is written first where the page
/// does not lie behind it, or has no room.
pub fn put_page<D: Disk>(
    disk: &mut D,
    run: &mut PageRun,
    at: u64,
    page: &[u8],
) -> Result<(), Failed>
    requires held { Fits run.old.at run.old.filled run.old.bytes }
    requires size { length page.now ≤ 4096 }
    requires room { at + 4096 ≤ 2 ^ 62 }
    ensures fits { OnOk result (Fits run.new.at run.new.filled run.new.bytes) }
    ensures shows { OnOk result ((content : List ℕ) → Shows run.old.at run.old.filled run.old.bytes (D.view disk.old) content
        → Shows run.new.at run.new.filled run.new.bytes (D.view disk.new) (overlaid at (padded page.now) content)) }
    ensures grows { OnOk result (Grows run.old.at run.old.filled at run.new.at run.new.filled) }
    ensures writes { WritesDiskOnce run.old.at run.old.filled (D.view disk.old) (D.view disk.new) result }
{
    make_room(disk, run, at)?;
    put_behind(&mut run.bytes, run.filled, page);
    run.filled += PAGE;
    Ok(())
}

/// Writes what is held.
pub fn flush<D: Disk>(disk: &mut D, run: &mut PageRun) -> Result<(), Failed>
    requires { Fits run.old.at run.old.filled run.old.bytes }
    ensures tells { OnOk result ((content : List ℕ) → Shows run.old.at run.old.filled run.old.bytes (D.view disk.old) content
        → Tells (D.view disk.new) content) }
    ensures none { OnOk result (run.new.filled ≡ 0) }
    ensures size { OnOk result (length run.new.bytes ≡ 65536) }
    ensures writes { WritesDiskOnce run.old.at run.old.filled (D.view disk.old) (D.view disk.new) result }
{
    if run.filled == 0 {
        return Ok(());
    }
    disk.write_at(run.at, &run.bytes[..run.filled])?;
    run.filled = 0;
    Ok(())
}

// Makes room for a page that goes there, behind what is held or as the first.
fn make_room<D: Disk>(disk: &mut D, run: &mut PageRun, at: u64) -> Result<(), Failed>
    requires { Fits run.old.at run.old.filled run.old.bytes }
    ensures shows { OnOk result ((content : List ℕ) → Shows run.old.at run.old.filled run.old.bytes (D.view disk.old) content
        → Shows run.new.at run.new.filled run.new.bytes (D.view disk.new) content) }
    ensures end { OnOk result (run.new.at + run.new.filled ≡ at) }
    ensures start { OnOk result ((run.new.at ≡ at) ⊎ ((run.new.at ≡ run.old.at) × (at ≡ run.old.at + run.old.filled))) }
    ensures room { OnOk result (run.new.filled + 4096 ≤ 65536) }
    ensures size { OnOk result (length run.new.bytes ≡ 65536) }
    ensures writes { WritesDiskOnce run.old.at run.old.filled (D.view disk.old) (D.view disk.new) result }
{
    if lies_behind(run, at) {
        return Ok(());
    }
    flush(disk, run)?;
    run.at = at;
    Ok(())
}

// Whether a page that goes there lies behind what is held, and has room.
fn lies_behind(run: &PageRun, at: u64) -> bool
    requires { Fits run.now.at run.now.filled run.now.bytes }
    ensures room { IsTrue result → run.now.filled + 4096 ≤ 65536 }
    ensures place { IsTrue result → run.now.at + run.now.filled ≡ at }
{
    if RUN - PAGE < run.filled {
        return false;
    }
    run.at + run.filled as u64 == at
}

// Puts a page, with zeros behind its bytes, behind the first so many bytes.
fn put_behind(bytes: &mut [u8; RUN], filled: usize, page: &[u8])
    requires room { filled + 4096 ≤ 65536 }
    requires size { length page.now ≤ 4096 }
    ensures held { take (filled + 4096) bytes.new ≡ take filled bytes.old ++ padded page.now }
    ensures long { length bytes.new ≡ 65536 }
{
    let end = filled + page.len();
    bytes[filled..end].copy_from_slice(page);
    bytes[end..filled + PAGE].fill(0);
}
