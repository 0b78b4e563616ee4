//! Files that are read by lots, side by side, as they are read line by line.
ghost use Rattle.std.specs.Prelude.{◌<◌};

use crate::entries::{inputs_of, put_entries};
use crate::handing::Copies;
use object_fold::Change;
use opl_files::{read_by_lots, scan_by_lots};
use osm_base::Limits;
use std::alloc::{AllocError, Global};
use std::thread::Threads;

/// The longest file that is read by lots of each size.
const SHORT: usize = 1024;

/// The sizes of a lot for a short file, and for another one.
const EACH_LOT: [usize; 2] = [1, 65];

const LARGE_LOTS: [usize; 2] = [40_000, 40_002];

/// Whether a file of which a call may fail, read by lots of some sizes and by one to four workers, gives what one reader found.
pub fn is_read_by_lots<R: Threads + Sync>(
    rt: &R,
    alloc: Global,
    limits: &Limits,
    file: &[u8],
    call: u64,
    wanted: &[u8],
) -> Result<bool, AllocError> {
    // How many calls there are depends on the lots, so a later one fails of others.
    if call > 1 {
        return Ok(true);
    }
    let [first, end] = if file.len() <= SHORT {
        EACH_LOT
    } else {
        LARGE_LOTS
    };
    for lot in first..end {
        for workers in 1..5u32 {
            if !gives(rt, alloc, limits, file, call, workers, lot, wanted)?
                || !hands(rt, alloc, limits, file, call, workers, lot, wanted)?
            {
                return Ok(false);
            }
        }
    }
    Ok(true)
}

/// Whether a file gives this, read by so many workers and by lots of so many bytes.
fn gives<R: Threads + Sync>(
    rt: &R,
    alloc: Global,
    limits: &Limits,
    file: &[u8],
    call: u64,
    workers: u32,
    lot: usize,
    wanted: &[u8],
) -> Result<bool, AllocError>
    requires { (0 < workers) × (0 < lot) }
{
    let bytes = Vec::from_slice(alloc, file)?;
    let Ok(mut inputs) = inputs_of(alloc, bytes, call) else {
        return Ok(false);
    };
    let mut found = Vec::new(alloc);
    let read = read_by_lots(rt, alloc, &mut inputs, 0, limits, workers, lot);
    put_entries(alloc, &mut found, &read)?;
    Ok(found.as_slice() == wanted)
}

/// Whether it gives this to one who hands all entries back, too.
fn hands<R: Threads + Sync>(
    rt: &R,
    alloc: Global,
    limits: &Limits,
    file: &[u8],
    call: u64,
    workers: u32,
    lot: usize,
    wanted: &[u8],
) -> Result<bool, AllocError>
    requires { (0 < workers) × (0 < lot) }
{
    let bytes = Vec::from_slice(alloc, file)?;
    let Ok(mut inputs) = inputs_of(alloc, bytes, call) else {
        return Ok(false);
    };
    let mut copies = Copies {
        alloc,
        change: Change::new(alloc),
    };
    let read = scan_by_lots(rt, alloc, &mut inputs, 0, limits, workers, lot, &mut copies);
    let mut found = Vec::new(alloc);
    put_entries(alloc, &mut found, &read.map(|()| copies.change))?;
    Ok(found.as_slice() == wanted)
}
