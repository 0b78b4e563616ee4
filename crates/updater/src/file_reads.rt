//! The files of a command, read.
ghost use Rattle.std.specs.Prelude.{◌≡◌, ◌≤◌, Ok, length, IfOk};
ghost use Rattle.std.specs.Result.{result_map_both};
ghost use Rattle.style_read.specs.Reading.{reading};
ghost use Rattle.updater.specs.FileReads.{ReadsFile};
ghost use Rattle.run_promise.specs.Files.{IsBounds, IsChange, IsQueries, IsStyle};

use geom_workers::Hands;
use map_query::{Queries, read_queries};
use object_fold::Change;
use opl_files::{read_all, read_parallel};
use osm_base::{Bytes, LimitKind, Limits, MAX_ENTRIES};
use outside::Inputs;
use run_promise::{Fault, MAX_WHOLE};
use std::alloc::Global;
use std::thread::Threads;
use style_read::{Style, read_style};
use tile_cover::{Bounds, read_bounds};

/// How many workers read the files of a command that is told no number.
pub const READERS: u32 = 4;

/// A style, and the bytes that write it.
#[derive(Drop)]
pub struct StyleFile {
    pub style: Style,
    pub bytes: Bytes,
    ghost read: { reading bytes ≡ Ok style },
}

/// The entries of a file, read by all hands.
pub fn read_change<R: Threads + Sync, I: Inputs, G>(
    hands: &Hands<'_, R, G>,
    inputs: &mut I,
    file: u32,
) -> Result<Change, Fault>
    ensures reads { ReadsFile (IsChange file) file (λ asked. I.reads inputs.old asked inputs.new) result (I.view inputs.old) (I.view inputs.new) }
    ensures few { IfOk result (λ change. length change ≤ MAX_ENTRIES) }
{
    let limits = Limits::standard();
    let workers = hands.workers.count();
    let change = match read_parallel(hands.rt, hands.alloc, inputs, file, &limits, workers) {
        Ok(change) => change,
        Err(fault) => return Err(Fault::in_file(file, fault)),
    };
    // Where nobody tells what a file holds, no clause of its reading says how many entries it has.
    if change.entries().len() as u64 > MAX_ENTRIES {
        return Err(Fault::Limit {
            which: LimitKind::FileEntries,
            value: MAX_ENTRIES + 1,
        });
    }
    Ok(change)
}

/// The style of a file.
pub fn read_style_file<I: Inputs>(
    alloc: Global,
    inputs: &mut I,
    file: u32,
) -> Result<StyleFile, Fault>
    ensures reads { ReadsFile (IsStyle file) file (λ asked. I.reads inputs.old asked inputs.new)
        (result_map_both (λ own. (own.style, own.bytes)) (λ fault. fault) result) (I.view inputs.old) (I.view inputs.new) }
{
    let bytes = match read_all(alloc, inputs, file, MAX_WHOLE) {
        Ok(bytes) => bytes,
        Err(fault) => return Err(Fault::in_whole(file, LimitKind::StyleBytes, fault)),
    };
    match read_style(alloc, bytes.as_slice()) {
        Ok(style) => Ok(StyleFile { style, bytes }),
        Err(fault) => Err(Fault::in_style(file, fault)),
    }
}

/// The boundaries of a file.
pub fn read_bounds_file<I: Inputs>(
    alloc: Global,
    inputs: &mut I,
    file: u32,
) -> Result<Bounds, Fault>
    ensures reads { ReadsFile (IsBounds file) file (λ asked. I.reads inputs.old asked inputs.new) result (I.view inputs.old) (I.view inputs.new) }
{
    let bytes = match read_all(alloc, inputs, file, MAX_WHOLE) {
        Ok(bytes) => bytes,
        Err(fault) => return Err(Fault::in_whole(file, LimitKind::BoundsBytes, fault)),
    };
    match read_bounds(alloc, bytes.as_slice()) {
        Ok(bounds) => Ok(bounds),
        Err(fault) => Err(Fault::in_bounds(file, fault)),
    }
}

/// The queries of a file, under a style.
pub fn read_queries_file<I: Inputs>(
    alloc: Global,
    inputs: &mut I,
    file: u32,
    style: &Style,
) -> Result<Queries, Fault>
    ensures reads { ReadsFile (IsQueries style.now file) file (λ asked. I.reads inputs.old asked inputs.new) result (I.view inputs.old) (I.view inputs.new) }
{
    let bytes = match read_all(alloc, inputs, file, MAX_WHOLE) {
        Ok(bytes) => bytes,
        Err(fault) => return Err(Fault::in_whole(file, LimitKind::QueryBytes, fault)),
    };
    match read_queries(alloc, bytes.as_slice(), style) {
        Ok(queries) => Ok(queries),
        Err(fault) => Err(Fault::in_queries(file, fault)),
    }
}
