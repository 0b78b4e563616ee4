//! Stores on disks in memory, and what they tell.

use crate::end::End;
use crate::setting::Setting;
use doubles::{Fails, MemDisk, MemInputs};
use geom_workers::{Hands, Workers};
use object_fold::Change;
use opl_files::{FileFault, read_file};
use osm_base::{Bytes, Delta, FileList, Limits, MAX_ENTRIES, OutOfMemory, Tables};
use outside::OpenGate;
use page_journal::format;
use row_text::table_text;
use std::alloc::{AllocError, Global};
use std::thread::Threads;
use style_read::{Style, read_style};
use tile_cover::{Bounds, TileRuns};
use update_flow::{FlowFault, Updater, open, store_fault};

/// What a store tells of itself.
#[derive(Drop)]
pub struct Standing {
    pub changes: u64,
    pub tables: Tables,
    pub due: TileRuns,
}

/// A disk with a store that was only made.
pub fn formatted(alloc: Global) -> Result<MemDisk, FlowFault> {
    let mut disk = MemDisk::new(alloc, Bytes::new(alloc), Fails::never(alloc));
    match format(&mut disk) {
        Ok(()) => Ok(disk),
        Err(fault) => Err(store_fault(fault)),
    }
}

/// Imports the entries of a text into the store.
pub fn import<R: Threads + Sync>(
    rt: &R,
    alloc: Global,
    disk: &mut MemDisk,
    limits: &Limits,
    setting: Setting<'_>,
    text: &str,
) -> Result<(), End> {
    let change = entries_of(alloc, text)?;
    let mut updater = opened(alloc, disk, limits)?;
    Ok(import_into(rt, alloc, &mut updater, setting, change)?)
}

/// Takes the store a change further, and answers how its tables differ.
pub fn append<R: Threads + Sync>(
    rt: &R,
    alloc: Global,
    disk: &mut MemDisk,
    limits: &Limits,
    bounds: &Bounds,
    workers: u32,
    text: &str,
) -> Result<Delta, End> {
    let change = entries_of(alloc, text)?;
    let mut updater = opened(alloc, disk, limits)?;
    Ok(append_to(rt, alloc, &mut updater, bounds, workers, change)?)
}

/// Takes the store a change further by one worker.
pub fn change<R: Threads + Sync>(
    rt: &R,
    alloc: Global,
    disk: &mut MemDisk,
    limits: &Limits,
    bounds: &Bounds,
    text: &str,
) -> Result<(), End> {
    let _delta = append(rt, alloc, disk, limits, bounds, 1, text)?;
    Ok(())
}

/// No tile of the store is due any more.
pub fn clear(alloc: Global, disk: &mut MemDisk) -> Result<(), FlowFault> {
    let mut updater = opened(alloc, disk, &Limits::standard())?;
    updater.clear_due()
}

/// What the store tells.
pub fn told(alloc: Global, disk: &mut MemDisk) -> Result<Standing, FlowFault> {
    let mut updater = opened(alloc, disk, &Limits::standard())?;
    told_together(updater.changes(), updater.load_tables(), updater.due())
}

/// The text of all tables.
pub fn tables_text(alloc: Global, style: &Style, tables: &Tables) -> Result<String, OutOfMemory> {
    let mut text = String::new(alloc);
    push_tables(alloc, &mut text, style, tables)?;
    Ok(text)
}

/// Adds the text of all tables.
pub fn push_tables(
    alloc: Global,
    text: &mut String,
    style: &Style,
    tables: &Tables,
) -> Result<(), OutOfMemory> {
    for (number, table) in style.tables.as_slice().iter().enumerate() {
        write!(text, "table {}\n", table.name.as_str())?;
        let rows = table_text(alloc, style, tables, number as u32)?;
        text.push_str(rows.as_str())?;
    }
    Ok(())
}

/// The open store of a disk. `AlreadyImported`: it is that of a follower, which took the tables of another store.
pub fn opened<'d>(
    alloc: Global,
    disk: &'d mut MemDisk,
    limits: &Limits,
) -> Result<Updater<'d, MemDisk>, FlowFault> {
    let Some(opened) = open(alloc, disk, limits)? else {
        return Err(FlowFault::AlreadyImported);
    };
    Ok(Updater::over(alloc, disk, opened, limits))
}

// What is told, where nothing of it is refused.
fn told_together(
    changes: u64,
    tables: Result<Tables, FlowFault>,
    due: Result<TileRuns, FlowFault>,
) -> Result<Standing, FlowFault> {
    Ok(Standing {
        changes,
        tables: tables?,
        due: due?,
    })
}

// The entries that a file writes.
fn entries_of(alloc: Global, text: &str) -> Result<Change, FileFault> {
    match files_of(alloc, text) {
        Ok(files) => {
            let mut inputs = MemInputs::new(files, Fails::never(alloc));
            read_file(alloc, &mut inputs, 0, &Limits::standard())
        }
        Err(_) => Err(FileFault::OutOfMemory),
    }
}

/// The one file of a text.
pub fn files_of(alloc: Global, text: &str) -> Result<FileList, AllocError> {
    let mut files = Vec::new(alloc);
    files.push(Bytes::from_vec(Vec::from_slice(alloc, text.as_bytes())?))?;
    Ok(FileList::from_vec(files))
}

// Imports entries.
fn import_into<R: Threads + Sync>(
    rt: &R,
    alloc: Global,
    updater: &mut Updater<'_, MemDisk>,
    setting: Setting<'_>,
    change: Change,
) -> Result<(), FlowFault> {
    let Setting {
        style: text,
        buckets,
        workers,
    } = setting;
    let few = change.entries().len() as u64 <= MAX_ENTRIES;
    if !few || !buckets.is_power_of_two() || buckets > 65536 {
        return Err(FlowFault::OutOfMemory);
    }
    let Some(workers) = Workers::new(workers) else {
        return Err(FlowFault::OutOfMemory);
    };
    let hands = Hands {
        rt,
        alloc,
        workers,
        gate: &OpenGate,
    };
    let bytes = text.as_bytes();
    match read_style(alloc, bytes) {
        Ok(style) => updater.import(&hands, bytes, style, change, buckets),
        Err(_) => Err(FlowFault::OutOfMemory),
    }
}

// Makes a change of entries.
fn append_to<R: Threads + Sync>(
    rt: &R,
    alloc: Global,
    updater: &mut Updater<'_, MemDisk>,
    bounds: &Bounds,
    workers: u32,
    change: Change,
) -> Result<Delta, FlowFault> {
    let Some(workers) = Workers::new(workers) else {
        return Err(FlowFault::OutOfMemory);
    };
    let hands = Hands {
        rt,
        alloc,
        workers,
        gate: &OpenGate,
    };
    updater.append_one(&hands, bounds, change)
}
