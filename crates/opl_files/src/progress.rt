//! The entries of a file, while it is read piece by piece.
ghost use Rattle.std.specs.Prelude.{◌≡◌, ◌<◌, ◌≤◌, ◌+◌, ◌++◌, ℕ, List, [], Ok, Err, None, Some, length, drop, IfOk, IfErr, OnOk};
ghost use Rattle.opl_lines.specs.Lines.{lines_of};
ghost use Rattle.opl_lines.specs.Reading.{room};
ghost use Rattle.opl_files.specs.Entries.{entries_of};
ghost use Rattle.opl_files.specs.Keeps.{kept, kept_all};
ghost use Rattle.opl_files.specs.Passed.{spelled, text_fault};
ghost use Rattle.opl_files.specs.Progress.{IsReady, IsReadyFor, entries_from, entries_left, passed_line};
ghost use Rattle.object_fold.specs.Keeps.{TakesNext};
ghost use Rattle.opl_files.specs.Stops.{StopsAt};

use crate::FileFault;
use crate::passed::Passed;
use object_fold::Keeper;
use opl_lines::{LineFault, LineReader};
use osm_base::{LimitKind, Limits};
use std::alloc::Global;

/// How far a file was read.
#[derive(Drop)]
pub struct Progress {
    pub reader: LineReader,
    pub passed: Passed,
}

/// The fault of a limit of lines.
fn limit_fault(limits: &Limits, fault: LineFault) -> FileFault
    ensures line_bytes { fault ≡ LineFault.LineBytes → result ≡ FileFault.Limit LimitKind.LineBytes (limits.now.line_bytes + 1) }
    ensures file_lines { fault ≡ LineFault.FileLines → result ≡ FileFault.Limit LimitKind.FileLines (limits.now.lines + 1) }
    ensures memory { fault ≡ LineFault.OutOfMemory → result ≡ FileFault.OutOfMemory }
{
    match fault {
        LineFault::LineBytes => FileFault::Limit {
            which: LimitKind::LineBytes,
            value: limits.line_bytes() + 1,
        },
        LineFault::FileLines => FileFault::Limit {
            which: LimitKind::FileLines,
            value: limits.lines() + 1,
        },
        LineFault::OutOfMemory => FileFault::OutOfMemory,
    }
}

/// Gives a keeper the entry of the next line, if it has one.
pub(crate) fn add_line<K: Keeper>(
    alloc: Global,
    limits: &Limits,
    passed: &mut Passed,
    keeper: &mut K,
    line: &[u8],
) -> Result<(), FileFault>
    requires counted { passed.old.lines < limits.now.lines }
    requires takes { TakesNext K.takes passed.old.last keeper.old }
    ensures ok { OnOk result (text_fault limits.now passed.old line.now ≡ None) }
    ensures passed { OnOk result (passed.new ≡ passed_line passed.old (spelled line.now)) }
    ensures kept { OnOk result (keeper.new ≡ kept K.after keeper.old (spelled line.now)) }
    ensures takes { OnOk result (TakesNext K.takes passed.new.last keeper.new) }
    ensures entries { OnOk result (passed.old.entries ≤ limits.now.entries → passed.new.entries ≤ limits.now.entries) }
    ensures stopped { IfErr result (StopsAt (λ fault. text_fault limits.now passed.old line.now ≡ Some fault)) }
{
    // No limit is above that of the program, so both counts fit.
    let _numbers = limits.numbers();
    if let Some(entry) = passed.read(alloc, limits, line)? {
        let key = entry.key;
        keeper.keep(entry)?;
        passed.entries += 1;
        passed.last = Some(key);
    }
    passed.lines += 1;
    Ok(())
}

impl Progress {
    /// Nothing is read yet.
    pub fn new(alloc: Global, limits: &Limits) -> Self
        ensures ready { IsReady limits.now result }
        ensures first { result.passed.last ≡ None }
        ensures start { (bytes : List ℕ) → entries_left limits.now result bytes ≡ entries_of limits.now bytes }
    {
        Self {
            reader: LineReader::new(alloc, limits),
            passed: Passed::new(),
        }
    }

    /// These lines were read, and nothing behind them.
    pub fn behind(alloc: Global, limits: &Limits, passed: Passed) -> Self
        requires lines { passed.lines ≤ limits.now.lines }
        requires entries { passed.entries ≤ limits.now.entries }
        ensures ready { IsReady limits.now result }
        ensures passed { result.passed ≡ passed }
        ensures left { (bytes : List ℕ) → entries_left limits.now result bytes ≡ entries_from limits.now passed (lines_of bytes) }
    {
        Self {
            reader: LineReader::behind(alloc, limits, passed.lines),
            passed,
        }
    }

    /// Reads on in a piece, up to and with the first newline, and answers how many bytes were read.
    fn take_line<K: Keeper>(
        &mut self,
        alloc: Global,
        limits: &Limits,
        keeper: &mut K,
        piece: &[u8],
    ) -> Result<usize, FileFault>
        requires some { 0 < length piece.now }
        requires ready { IsReadyFor K.takes limits.now self.old keeper.old }
        ensures ready { OnOk result (IsReadyFor K.takes limits.now self.new keeper.new) }
        ensures used { IfOk result (λ used. (0 < used) × (used ≤ length piece.now)) }
        ensures entries { IfOk result (λ used. (later : List ℕ) →
            kept_all K.after keeper.old (entries_left limits.now self.old (piece.now ++ later))
            ≡ kept_all K.after keeper.new (entries_left limits.now self.new (drop used piece.now ++ later))) }
        ensures room { OnOk result (room self.new.reader < room self.old.reader) }
        ensures stopped { IfErr result (StopsAt (λ fault. (later : List ℕ)
            → kept_all K.after keeper.old (entries_left limits.now self.old (piece.now ++ later)) ≡ Err fault)) }
    {
        let cut = match self.reader.take_line(piece) {
            Ok(cut) => cut,
            Err(fault) => return Err(limit_fault(limits, fault)),
        };
        if let Some(line) = cut.line.bytes(&self.reader) {
            add_line(alloc, limits, &mut self.passed, keeper, line)?;
        }
        Ok(cut.used)
    }

    /// Reads on in all of a piece.
    pub fn take<K: Keeper>(
        &mut self,
        alloc: Global,
        limits: &Limits,
        keeper: &mut K,
        piece: &[u8],
    ) -> Result<(), FileFault>
        requires ready { IsReadyFor K.takes limits.now self.old keeper.old }
        ensures ready { OnOk result (IsReadyFor K.takes limits.now self.new keeper.new) }
        ensures entries { OnOk result ((later : List ℕ) →
            kept_all K.after keeper.old (entries_left limits.now self.old (piece.now ++ later))
            ≡ kept_all K.after keeper.new (entries_left limits.now self.new later)) }
        ensures room { OnOk result (0 < length piece.now → room self.new.reader < room self.old.reader) }
        ensures stopped { IfErr result (StopsAt (λ fault. (later : List ℕ)
            → kept_all K.after keeper.old (entries_left limits.now self.old (piece.now ++ later)) ≡ Err fault)) }
    {
        let mut rest = piece;
        while !rest.is_empty() {
            let used = self.take_line(alloc, limits, keeper, rest)?;
            let (_, after) = rest.split_at(used);
            rest = after;
        }
        Ok(())
    }

    /// Gives the keeper the entry of a last line that no newline ended.
    pub fn finish<K: Keeper>(
        mut self,
        alloc: Global,
        limits: &Limits,
        keeper: &mut K,
    ) -> Result<(), FileFault>
        requires ready { IsReadyFor K.takes limits.now self keeper.old }
        ensures kept { OnOk result (kept_all K.after keeper.old (entries_left limits.now self []) ≡ Ok keeper.new) }
        ensures stopped { IfErr result (StopsAt (λ fault. kept_all K.after keeper.old (entries_left limits.now self []) ≡ Err fault)) }
    {
        if self.reader.finish() {
            let line = self.reader.line();
            add_line(alloc, limits, &mut self.passed, keeper, line)?;
        }
        Ok(())
    }
}
