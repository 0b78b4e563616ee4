//! One history after another.

use crate::dice::Dice;
use crate::differing::{add_differing, apply};
use crate::end::{End, Part};
use crate::setting::{Rules, STYLE, Setting};
use crate::stores::{Standing, append, clear, formatted, import, tables_text, told};
use crate::world::World;
use doubles::MemDisk;
use due_tiles::{tiles_text, union};
use osm_base::{Delta, Limits, OutOfMemory, Tables};
use std::alloc::Global;
use std::thread::Threads;
use tile_cover::TileRuns;

/// How many changes a history has.
const CHANGES: u64 = 10;

/// A history as far as it has come: the map, and what the store tells.
#[derive(Drop)]
struct History {
    workers: u32,
    dice: Dice,
    world: World,
    now: Standing,
}

/// Runs so many histories, from a seed on, and adds the seed of the first that does not come to its last change.
pub fn histories<R: Threads + Sync>(
    rt: &R,
    alloc: Global,
    rules: &Rules,
    first: u64,
    count: u64,
    out: &mut String,
) -> Result<(), End> {
    for place in 0..count {
        let seed = first.wrapping_add(place);
        if let Err(end) = run_both(rt, alloc, rules, seed) {
            write!(out, "seed {seed}: ")?;
            return Err(end);
        }
    }
    Ok(())
}

// Runs a history by one worker and by 64. Both leave the same bytes.
fn run_both<R: Threads + Sync>(rt: &R, alloc: Global, rules: &Rules, seed: u64) -> Result<(), End> {
    let one = left_by(rt, alloc, rules, seed, 1)?;
    let many = left_by(rt, alloc, rules, seed, 64)?;
    if one == many {
        Ok(())
    } else {
        Err(End::Differs(Part::Workers, CHANGES))
    }
}

// The bytes of the disk after a history.
fn left_by<R: Threads + Sync>(
    rt: &R,
    alloc: Global,
    rules: &Rules,
    seed: u64,
    workers: u32,
) -> Result<Vec<u8>, End> {
    let mut disk = formatted(alloc)?;
    run_on(rt, alloc, &mut disk, rules, seed, workers)?;
    Ok(Vec::from_slice(alloc, disk.bytes())?)
}

// A history on this disk.
fn run_on<R: Threads + Sync>(
    rt: &R,
    alloc: Global,
    disk: &mut MemDisk,
    rules: &Rules,
    seed: u64,
    workers: u32,
) -> Result<(), End> {
    let mut history = History {
        workers,
        dice: Dice::new(seed),
        world: World::new(),
        now: Standing {
            changes: 0,
            tables: Tables::new(alloc),
            due: TileRuns::new(alloc),
        },
    };
    history.run(rt, alloc, disk, rules, buckets_of(seed))
}

// How many buckets the maps of a seed's store have.
fn buckets_of(seed: u64) -> u64 {
    match seed % 3 {
        0 => 1,
        1 => 16,
        _ => 1024,
    }
}

impl History {
    /// The import, and all changes.
    fn run<R: Threads + Sync>(
        &mut self,
        rt: &R,
        alloc: Global,
        disk: &mut MemDisk,
        rules: &Rules,
        buckets: u64,
    ) -> Result<(), End> {
        self.begin(rt, alloc, disk, buckets)?;
        for number in 1..CHANGES + 1 {
            self.turn(rt, alloc, disk, rules, number)?;
            if self.dice.once_in(4) {
                clear(alloc, disk)?;
                self.now.due = TileRuns::new(alloc);
            }
        }
        Ok(())
    }

    /// The import.
    fn begin<R: Threads + Sync>(
        &mut self,
        rt: &R,
        alloc: Global,
        disk: &mut MemDisk,
        buckets: u64,
    ) -> Result<(), End> {
        let setting = Setting {
            style: STYLE,
            buckets,
            workers: self.workers,
        };
        let mut text = String::new(alloc);
        self.world.change(&mut self.dice, 1, &mut text)?;
        self.now = imported(rt, alloc, disk, setting, &text)?;
        Ok(())
    }

    /// A change, after which the store is compared with a fresh one.
    fn turn<R: Threads + Sync>(
        &mut self,
        rt: &R,
        alloc: Global,
        disk: &mut MemDisk,
        rules: &Rules,
        number: u64,
    ) -> Result<(), End> {
        let delta = self.changed(rt, alloc, disk, rules)?;
        let after = told(alloc, disk)?;
        let compared = self.compare(rt, alloc, rules, number, delta, &after);
        self.now = after;
        compared
    }

    /// Changes the store as the map is changed.
    fn changed<R: Threads + Sync>(
        &mut self,
        rt: &R,
        alloc: Global,
        disk: &mut MemDisk,
        rules: &Rules,
    ) -> Result<Delta, End> {
        let limits = Limits::standard();
        let mut text = String::new(alloc);
        self.world.change(&mut self.dice, 6, &mut text)?;
        append(rt, alloc, disk, &limits, &rules.bounds, self.workers, &text)
    }

    /// Compares what the store tells with the store of a fresh import, and with what the rows and the delta say.
    fn compare<R: Threads + Sync>(
        &mut self,
        rt: &R,
        alloc: Global,
        rules: &Rules,
        number: u64,
        delta: Delta,
        after: &Standing,
    ) -> Result<(), End> {
        let version = delta.version;
        let due = is_due(alloc, rules, &self.now, after);
        apply(&mut self.now.tables, delta)?;
        if version != number || after.changes != number {
            return Err(End::Differs(Part::Version, number));
        }
        if !due? {
            return Err(End::Differs(Part::Tiles, number));
        }
        let fresh = fresh_text(rt, alloc, rules, &self.world)?;
        compare_tables(
            alloc,
            rules,
            number,
            [&after.tables, &self.now.tables],
            &fresh,
        )
    }
}

// Compares the tables of a store, and those that the delta leads to, with the text of fresh ones.
fn compare_tables(
    alloc: Global,
    rules: &Rules,
    number: u64,
    tables: [&Tables; 2],
    fresh: &str,
) -> Result<(), End> {
    let [after, led] = tables;
    if !has_text(alloc, rules, after, fresh)? {
        return Err(End::Differs(Part::Tables, number));
    }
    if !has_text(alloc, rules, led, fresh)? {
        return Err(End::Differs(Part::Delta, number));
    }
    Ok(())
}

// Whether tables have this text.
fn has_text(
    alloc: Global,
    rules: &Rules,
    tables: &Tables,
    text: &str,
) -> Result<bool, OutOfMemory> {
    let own = tables_text(alloc, &rules.style, tables)?;
    Ok(own.as_str() == text)
}

// Whether the tiles are due that were, and those that a row that differs meets.
fn is_due(
    alloc: Global,
    rules: &Rules,
    before: &Standing,
    after: &Standing,
) -> Result<bool, OutOfMemory> {
    let mut due = TileRuns::new(alloc);
    union(alloc, &mut due, &before.due)?;
    add_differing(alloc, rules, [&before.tables, &after.tables], &mut due)?;
    Ok(tiles_text(alloc, &after.due, 0)? == tiles_text(alloc, &due, 0)?)
}

// The text of the tables of a fresh import.
fn fresh_text<R: Threads + Sync>(
    rt: &R,
    alloc: Global,
    rules: &Rules,
    world: &World,
) -> Result<String, End> {
    let fresh = fresh(rt, alloc, world)?;
    Ok(tables_text(alloc, &rules.style, &fresh.tables)?)
}

// What a store tells in which all objects are imported.
fn fresh<R: Threads + Sync>(rt: &R, alloc: Global, world: &World) -> Result<Standing, End> {
    let setting = Setting {
        style: STYLE,
        buckets: 4,
        workers: 1,
    };
    let mut text = String::new(alloc);
    world.push(&mut text)?;
    let mut disk = formatted(alloc)?;
    imported(rt, alloc, &mut disk, setting, &text)
}

// What the store tells once these objects are imported.
fn imported<R: Threads + Sync>(
    rt: &R,
    alloc: Global,
    disk: &mut MemDisk,
    setting: Setting<'_>,
    text: &str,
) -> Result<Standing, End> {
    import(rt, alloc, disk, &Limits::standard(), setting, text)?;
    Ok(told(alloc, disk)?)
}
