//! Sets of tiles in bytes.
ghost use Rattle.std.specs.Prelude.{◌≡◌, ◌++◌, ◌↔◌, IsTrue, IfOk, IfErr, IfSome, IsNone, OnOk};
ghost use Rattle.std.specs.List.{AllByRecursion};
ghost use Rattle.tile_cover.specs.Runs.{IsRun, IsTileSet, Follows};
ghost use Rattle.value_bytes.specs.Forms.{IsFront, IsFrontless, IsNoValue, Spells};
ghost use Rattle.due_tiles.specs.Spelling.{IsRead, IsSpelling, NeedsFor, NumbersOf, TakesRun, run_bytes, set_bytes};

use crate::DueFault;
use crate::places::follows;
use osm_base::{Bytes, Items, OutOfMemory};
use std::alloc::Global;
use tile_cover::{MAX_ZOOM, Run, TileRuns};
use value_bytes::{Spelled, ValueFault, push_number};

/// The four numbers of a run.
type Four = (u64, (u64, (u64, u64)));

/// The bytes of a set of tiles, the same for each set of the same tiles.
pub fn encode(alloc: Global, runs: &TileRuns) -> Result<Bytes, OutOfMemory>
    ensures bytes { IfOk result (λ bytes. bytes ≡ set_bytes runs.now) }
    ensures one { IfOk result (IsSpelling runs.now) }
{
    let runs = runs.as_slice();
    let mut out = Vec::with_capacity(alloc, runs.len().saturating_mul(32))?;
    for run in runs {
        push_run(&mut out, *run)?;
    }
    Ok(Items::from_vec(out))
}

/// Puts the bytes of a run behind those that are there.
fn push_run(out: &mut Vec<u8>, run: Run) -> Result<(), OutOfMemory>
    ensures ok { OnOk result (out.new.items ≡ out.old.items ++ run_bytes run) }
{
    push_number(out, u64::from(run.zoom))?;
    push_number(out, u64::from(run.y))?;
    push_number(out, u64::from(run.first))?;
    push_number(out, u64::from(run.last))?;
    Ok(())
}

/// The set of tiles with these bytes.
pub fn decode(alloc: Global, bytes: &[u8]) -> Result<TileRuns, DueFault>
    ensures set { IfOk result (Spells set_bytes IsTileSet bytes.now) }
    ensures refused { IfErr result (NeedsFor (IsNoValue set_bytes IsTileSet bytes.now)) }
{
    let mut set = TileRuns::new(alloc);
    let mut rest = bytes;
    while rest.len() > 0 {
        match take_run(alloc, &mut set, rest) {
            Ok(behind) => rest = behind,
            Err(fault) => return Err(fault),
        }
    }
    let _runs = set.as_slice();
    Ok(set)
}

/// Puts the run at the front of the bytes behind a set, and gives the bytes behind it.
fn take_run<'b>(alloc: Global, set: &mut TileRuns, rest: &'b [u8]) -> Result<&'b [u8], DueFault>
    ensures taken { IfOk result (λ behind. TakesRun set.old set.new rest.now behind.now) }
    ensures refused { IfErr result (NeedsFor (IsRead set.old rest.now)) }
{
    let (run, behind) = match front_run(alloc, rest) {
        Ok(found) => found,
        Err(fault) => return Err(fault),
    };
    if !is_behind(set, run) {
        return Err(DueFault::NotSpelled);
    }
    set.push(run)?;
    Ok(behind)
}

/// Whether a run follows all of a set.
fn is_behind(set: &TileRuns, run: Run) -> bool
    ensures behind { IsTrue result ↔ AllByRecursion (λ before. Follows before run) set.now }
{
    let runs = set.as_slice();
    let count = runs.len();
    if count == 0 {
        return true;
    }
    follows(runs[count - 1], run)
}

/// The run at the front, and the bytes behind it.
fn front_run<'b>(alloc: Global, bytes: &'b [u8]) -> Result<(Run, &'b [u8]), DueFault>
    ensures run { IfOk result (λ (run, rest). IsFront run_bytes IsRun bytes.now run rest.now) }
    ensures refused { IfErr result (NeedsFor (IsFrontless run_bytes IsRun bytes.now)) }
{
    let (four, rest) = match Four::front(alloc, bytes) {
        Ok(found) => found,
        Err(ValueFault::NotSpelled) => return Err(DueFault::NotSpelled),
        Err(ValueFault::OutOfMemory) => return Err(DueFault::OutOfMemory),
    };
    match run_of(four) {
        Some(run) => Ok((run, rest)),
        None => Err(DueFault::NotSpelled),
    }
}

/// The run of four numbers. `None`: they are none of a run.
fn run_of(four: Four) -> Option<Run>
    ensures run { IfSome result (λ run. IsRun run × NumbersOf run four) }
    ensures none { IsNone result → (run : Run) → IsRun run → NumbersOf run four → ⊥ }
{
    let (zoom, (y, (first, last))) = four;
    if zoom > u64::from(MAX_ZOOM) {
        return None;
    }
    let columns = 1u64 << zoom;
    if y >= columns || first > last || last >= columns {
        return None;
    }
    Some(Run {
        zoom: zoom as u32,
        y: y as u32,
        first: first as u32,
        last: last as u32,
    })
}
