//! Whole tables, whose text several workers make.
ghost use Rattle.std.specs.Prelude.{◌≡◌, ◌<◌, ◌≤◌, ◌++◌, IfOk, IfErr, OnOk, OnErr, codes, flat_map};
ghost use Rattle.std.specs.Io.KnownBytes.{Appends};
ghost use Rattle.outside.specs.Bytes.{AppendsPrefix};
ghost use Rattle.outside.specs.Causes.{HasCause};
ghost use Rattle.delta_feed.specs.Text.{ended_line, entry_lines, full_line, full_text, style_lines, table_entries, ended_lines};
ghost use Rattle.delta_feed.specs.Writing.{IsUnwritten};

use crate::FeedWrite;
use crate::rows::push_own_entries;
use crate::written::{push_end, push_full, push_style};
use object_fold::WorkerCount;
use osm_base::{OutOfMemory, Row, Spot};
use outside::{Failed, Sink, put_all};
use rayon::prelude::*;
use std::alloc::Global;
use std::thread::Threads;
use store_maps::SortedRows;

/// How many rows are worth a thread of their own.
const LEAST: usize = 2_048;

/// Writes a block of whole tables, whose text so many workers make.
pub fn write_full_by<R: Threads + Sync, S: Sink>(
    rt: &R,
    alloc: Global,
    workers: u32,
    version: u64,
    style_bytes: &[u8],
    tables: &SortedRows,
    out: &mut S,
) -> Result<(), FeedWrite>
    requires workers { 0 < workers }
    ensures ok { OnOk result (Appends (S.view out.old).taken (S.view out.new).taken (full_text version style_bytes.now tables.now)) }
    ensures err { IfErr result (IsUnwritten (full_text version style_bytes.now tables.now) (S.view out.old) (S.view out.new)) }
    ensures later { (S.view out.old).faults ≤ (S.view out.new).faults }
{
    let workers = WorkerCount { count: workers };
    let Ok(texts) = full_texts(rt, alloc, workers, version, style_bytes, tables) else {
        return Err(FeedWrite::OutOfMemory);
    };
    match put_each(out, &texts) {
        Ok(()) => Ok(()),
        Err(_) => Err(FeedWrite::WriteFault),
    }
}

/// Puts texts, one behind another.
fn put_each<S: Sink>(out: &mut S, texts: &[Vec<u8>]) -> Result<(), Failed>
    ensures ok { OnOk result (Appends (S.view out.old).taken (S.view out.new).taken (flat_map (λ text. text.items) texts.now)) }
    ensures err { OnErr result (AppendsPrefix (S.view out.old).taken (S.view out.new).taken (flat_map (λ text. text.items) texts.now)) }
    ensures cause { HasCause (S.view out.old).faults (S.view out.new).faults result }
{
    for text in texts {
        put_all(out, text)?;
    }
    Ok(())
}

// All of it is made before any is put: where memory runs out, nothing was put.
/// The text of a block of whole tables, in pieces.
fn full_texts<R: Threads + Sync>(
    rt: &R,
    alloc: Global,
    workers: WorkerCount,
    version: u64,
    style_bytes: &[u8],
    tables: &SortedRows,
) -> Result<Vec<Vec<u8>>, OutOfMemory>
    ensures texts { IfOk result (λ texts. flat_map (λ text. text.items) texts.items ≡ full_text version style_bytes.now tables.now) }
{
    let mut rows = entry_texts(rt, alloc, workers, tables.rows())?;
    let mut texts = Vec::new(alloc);
    texts.push(head_text(alloc, version, style_bytes)?)?;
    texts.append(&mut rows)?;
    texts.push(end_text(alloc)?)?;
    Ok(texts)
}

/// The lines before the rows.
fn head_text(alloc: Global, version: u64, style_bytes: &[u8]) -> Result<Vec<u8>, OutOfMemory>
    ensures text { IfOk result (λ text. text.items ≡ ended_line (full_line version) ++ ended_lines (style_lines style_bytes.now)) }
{
    let mut out = Vec::new(alloc);
    push_full(&mut out, version)?;
    push_style(&mut out, style_bytes)?;
    Ok(out)
}

/// The line behind them.
fn end_text(alloc: Global) -> Result<Vec<u8>, OutOfMemory>
    ensures text { IfOk result (λ text. text.items ≡ ended_line (codes "end")) }
{
    let mut out = Vec::new(alloc);
    push_end(&mut out)?;
    Ok(out)
}

/// The texts of rows in pieces, which are made side by side. Few rows are one piece, whose text this thread makes.
fn entry_texts<R: Threads + Sync>(
    rt: &R,
    alloc: Global,
    workers: WorkerCount,
    entries: &[(Spot, Row)],
) -> Result<Vec<Vec<u8>>, OutOfMemory>
    ensures texts { IfOk result (λ texts. flat_map (λ text. text.items) texts.items ≡ ended_lines (entry_lines (table_entries entries.now))) }
{
    let text = |piece: &[(Spot, Row)]| -> Result<Vec<u8>, OutOfMemory>
        ensures { IfOk result (λ text. text.items ≡ ended_lines (entry_lines (table_entries piece.now))) }
    { entry_text(alloc, piece) };
    let size = piece_len(entries.len(), workers);
    let texts: Result<Vec<Vec<u8>>, OutOfMemory> = entries
        .par_chunks(size)
        .map(text)
        .collect(rt, alloc)?;
    texts
}

// Where the rows do not come out even, few are left over. They stand behind the last piece, and the thread of that one makes their
// text too.
/// How many rows a piece has.
fn piece_len(count: usize, workers: WorkerCount) -> usize
    ensures some { 0 < result }
{
    (count / workers.count as usize).max(LEAST)
}

/// The text of a piece.
fn entry_text(alloc: Global, piece: &[(Spot, Row)]) -> Result<Vec<u8>, OutOfMemory>
    ensures text { IfOk result (λ text. text.items ≡ ended_lines (entry_lines (table_entries piece.now))) }
{
    let mut out = Vec::new(alloc);
    push_own_entries(alloc, &mut out, piece)?;
    Ok(out)
}
