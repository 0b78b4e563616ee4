//! Examples of rows that workers build.
ghost use Rattle.std.specs.Prelude.{◌≡◌, ◌≤◌, true, length};
ghost use Rattle.geom_workers.specs.Keys.{keys_of};

use crate::pending::{nodes_to, objects_of, pending_of};
use crate::refusal::Refusal;
use example_table::{named_row, number_in};
use geom_workers::{Hands, MAX_KEYS, Part, Workers, build_all, key_count, work};
use object_fold::Objects;
use osm_base::{OutOfMemory, PendingSet, RowLists, TableRow};
use outside::{Gate, OpenGate};
use pending_book::Book;
use row_text::push_row;
use std::alloc::Global;
use std::thread::Threads;
use style_read::{Style, read_style};

/// Cafes, roads with the bus lines on them, and areas.
const TOWN: &str = "
select = [{ name = 'bus', where = ['type=route', 'route=bus'], take = 'ref' }]
table = [
  { name = 'cafes', source = 'node', geometry = 'point', where = ['amenity=cafe'], column = [{ name = 'name', from = 'tag:name' }] },
  { name = 'roads', source = 'way', geometry = 'line', where = ['highway'], column = [{ name = 'lanes', from = 'tag:lanes', type = 'int' }, { name = 'buses', from = 'selected:bus' }] },
  { name = 'areas', source = 'area', geometry = 'polygon', any = ['landuse', 'type=multipolygon'], column = [{ name = 'tags', from = 'tags' }] },
]
";

/// The style of a town.
fn town(alloc: Global) -> Result<Style, Refusal> {
    match read_style(alloc, TOWN.as_bytes()) {
        Ok(style) => Ok(style),
        Err(_) => Err(Refusal::OutOfMemory),
    }
}

/// The rows that some workers build.
pub fn rows_by<G: Gate, R: Threads + Sync>(
    rt: &R,
    alloc: Global,
    workers: u64,
    pending: &PendingSet,
    objects: &Objects,
    gate: &G,
) -> Result<RowLists, Refusal> {
    let Some(workers) = workers_of(workers) else {
        return Err(Refusal::NoRow);
    };
    let style = town(alloc)?;
    let hands = Hands {
        rt,
        alloc,
        workers,
        gate,
    };
    build(&hands, &style, pending, objects)
}

/// So many workers, if they may be as many.
fn workers_of(count: u64) -> Option<Workers> {
    Workers::new(u32::try_from(count).ok()?)
}

/// The rows that some workers build, the contract left behind.
fn build<G: Gate, R: Threads + Sync>(
    hands: &Hands<'_, R, G>,
    style: &Style,
    pending: &PendingSet,
    objects: &Objects,
) -> Result<RowLists, Refusal> {
    if !are_few(pending) {
        return Err(Refusal::NoRow);
    }
    match build_all(hands, style, pending, objects) {
        Ok(built) => Ok(built.rows),
        Err(OutOfMemory) => Err(Refusal::OutOfMemory),
    }
}

/// Whether no more keys wait than there may be tickets.
fn are_few(pending: &PendingSet) -> bool
    ensures few { result ≡ true → length (keys_of pending.now) ≤ MAX_KEYS }
{
    let most = MAX_KEYS / 4;
    pending.nodes().len() <= most
        && pending.ways().len() <= most
        && pending.relations().len() <= most
}

/// A row `WORKERS KEYS FILE..`: the rows of these keys, the key's number first.
pub fn built<R: Threads + Sync>(
    rt: &R,
    alloc: Global,
    given: &str,
    out: &mut String,
) -> Result<(), Refusal> {
    let Some((workers, keys, files)) = given_by(given) else {
        return Err(Refusal::NoRow);
    };
    let pending = pending_of(alloc, keys)?;
    let objects = objects_of(alloc, files)?;
    push_built(rt, alloc, workers, &pending, &objects, out)
}

/// The number of workers, the keys and the files of a row.
fn given_by(text: &str) -> Option<(u64, &str, &str)> {
    let (workers, rest) = named_row(text)?;
    let (keys, files) = named_row(rest)?;
    Some((number_in(workers)?, keys, files))
}

/// Adds the rows that some workers build.
fn push_built<R: Threads + Sync>(
    rt: &R,
    alloc: Global,
    workers: u64,
    pending: &PendingSet,
    objects: &Objects,
    out: &mut String,
) -> Result<(), Refusal> {
    let rows = rows_by(rt, alloc, workers, pending, objects, &OpenGate)?;
    push_lists(alloc, &rows, out)
}

/// A row `COUNT WORKERS`: as many nodes wait, and none of them is an object. How many lists come out.
pub fn many<R: Threads + Sync>(
    rt: &R,
    alloc: Global,
    given: &str,
    out: &mut String,
) -> Result<(), Refusal> {
    let Some((count, workers)) = numbers_of(given) else {
        return Err(Refusal::NoRow);
    };
    let pending = nodes_to(alloc, count)?;
    push_count(rt, alloc, workers, &pending, out)
}

/// Two numbers.
pub fn numbers_of(text: &str) -> Option<(u64, u64)> {
    let (first, second) = named_row(text)?;
    Some((number_in(first)?, number_in(second)?))
}

/// Adds how many lists some workers build where there is no object.
fn push_count<R: Threads + Sync>(
    rt: &R,
    alloc: Global,
    workers: u64,
    pending: &PendingSet,
    out: &mut String,
) -> Result<(), Refusal> {
    let rows = rows_by(rt, alloc, workers, pending, &Objects::new(alloc), &OpenGate)?;
    let count = rows.as_slice().len();
    write!(out, "{count} lists")?;
    Ok(())
}

/// Adds the rows of lists, each with the number of its list and of its table.
fn push_lists(alloc: Global, rows: &RowLists, out: &mut String) -> Result<(), Refusal> {
    let mut line = String::new(alloc);
    for (number, list) in rows.as_slice().iter().enumerate() {
        for row in list.as_slice() {
            line.clear();
            push_line(number, row, &mut line)?;
            push_readable(line.as_str(), out)?;
        }
    }
    Ok(())
}

/// Adds the line of a row.
fn push_line(number: usize, row: &TableRow, out: &mut String) -> Result<(), Refusal> {
    let table = row.table;
    write!(out, "{number}\t{table}\t")?;
    push_row(out, 0, &row.row)?;
    Ok(())
}

/// Adds a text with blanks for tabs, and bars for newlines.
fn push_readable(text: &str, out: &mut String) -> Result<(), Refusal> {
    for letter in text.chars() {
        out.push(match letter {
            '\t' => ' ',
            '\n' => '|',
            _ => letter,
        })?;
    }
    Ok(())
}

/// A row `KEYS FILE..`: the rows of one worker, and its tickets.
pub fn worked(alloc: Global, given: &str, out: &mut String) -> Result<(), Refusal> {
    let Some((keys, files)) = named_row(given) else {
        return Err(Refusal::NoRow);
    };
    let pending = pending_of(alloc, keys)?;
    let objects = objects_of(alloc, files)?;
    push_worked(alloc, &pending, &objects, out)
}

/// Adds what one worker builds: the rows, and its tickets.
fn push_worked(
    alloc: Global,
    pending: &PendingSet,
    objects: &Objects,
    out: &mut String,
) -> Result<(), Refusal> {
    let style = town(alloc)?;
    let part = part_of(alloc, &style, pending, objects)?;
    push_lists(alloc, &part.rows, out)?;
    write!(out, "{:?}", part.tickets.as_slice())?;
    Ok(())
}

/// What one worker builds of all keys.
fn part_of(
    alloc: Global,
    style: &Style,
    pending: &PendingSet,
    objects: &Objects,
) -> Result<Part, Refusal> {
    if !are_few(pending) {
        return Err(Refusal::NoRow);
    }
    let (book, mut seat) = Book::new(alloc, key_count(pending) as u32, 1)?;
    Ok(work(alloc, &book, &mut seat, style, pending, objects, &OpenGate)?)
}
