//! A reader of lines, which is given the bytes of a file piece by piece.
ghost use Rattle.std.specs.Prelude.{◌≡◌, ◌≢◌, ◌↔◌, ◌+◌, ◌<◌, ◌≤◌, ◌++◌, [], ◌∷◌, false, None, Some, Ok, length, if◌then◌else◌, Contains, IsTrue, OnOk, OnErr, IfOk, IfErr, IfSome, IfNone, IsErrOf};
ghost use Rattle.std.specs.Bool.{OnTrue, OnFalse};
ghost use Rattle.std.specs.Option.{option_copied};
ghost use Rattle.opl_lines.specs.Lines.{lines_of, IsWithinLine};
ghost use Rattle.opl_lines.specs.Reading.{begun, start, room, KeepsLimits, PassesFileLines, PassesLineBytes, after_fault, ended};
ghost use Rattle.opl_lines.specs.Steps.{IsFront, IsFirstLine, Admits, GrowsTooLong, grown};
ghost use Rattle.opl_lines.specs.Takes.{ended_line, Takes, Refuses};

use crate::LineFault;
use memchr::memchr;
use osm_base::Limits;
use std::alloc::{AllocError, Global};
use std::marker::Model;

/// The byte that ends a line.
pub const NEWLINE: u8 = b'\n';

/// The number that code and definitions share is the one that ASCII has for a newline.
pub fn shared_numbers()
    ensures newline { NEWLINE ≡ 10 }
{}

/// What `take` did with a piece. For callers outside: the program does not use it.
#[derive(Clone, Copy)]
pub struct Taken {
    /// How many bytes of the piece were taken.
    pub used: usize,
    /// A line ended, which is now the reader's `line`.
    pub whole: bool,
}

/// What `take_line` did with a piece.
#[derive(Clone, Copy)]
pub struct Cut<'p> {
    /// How many bytes of the piece were taken.
    pub used: usize,
    /// The line that ended, if one did.
    pub line: Line<'p>,
}

/// Where a line lies that ended.
#[derive(Clone, Copy)]
pub enum Line<'p> {
    /// In the piece: nothing was copied, and the reader's `line` is not it.
    InPiece(&'p [u8]),
    /// In the reader, as its `line`: it began in an earlier piece.
    InReader,
    /// Nowhere yet: the piece ended first, and the reader keeps its bytes.
    Open,
}

/// Cuts a file into lines, in whatever pieces its bytes come.
#[derive(Drop)]
pub struct LineReader {
    line: Vec<u8>,
    whole: bool,
    number: u64,
    line_bytes: u64,
    lines: u64,
    failed: Option<LineFault>,
}

impl Model for LineReader {
    ghost use Rattle.opl_lines.specs.Reading.{Reading, KeepsLimits};

    ghost Value = { Reading };

    ghost view = { λ reader. record {
      line = reader.line.items;
      whole = reader.whole;
      number = reader.number;
      line_bytes = reader.line_bytes;
      lines = reader.lines;
      failed = reader.failed;
    } };

    ghost invariant = { λ reader. KeepsLimits (record {
      line = reader.line.items;
      whole = reader.whole;
      number = reader.number;
      line_bytes = reader.line_bytes;
      lines = reader.lines;
      failed = reader.failed;
    }) };
}

impl<'p> Line<'p> {
    /// The line that ended, if one did, where `reader` made this cut and took nothing since.
    #[inline]
    pub fn bytes(self, reader: &'p LineReader) -> Option<&'p [u8]>
        ensures line { option_copied result ≡ ended_line self.entry reader.now.line }
    {
        match self {
            Line::InPiece(line) => Some(line),
            Line::InReader => Some(reader.line()),
            Line::Open => None,
        }
    }
}

/// The bytes of a piece before its first newline, and whether it has one.
#[inline]
fn up_to_newline(piece: &[u8]) -> (&[u8], bool)
    ensures front { IsFront piece.now result.0.now result.1 }
{
    match memchr(NEWLINE, piece) {
        Some(end) => (&piece[..end], true),
        None => (piece, false),
    }
}

/// The first line of bytes, without its newline, and the bytes behind that. `None`: no line ends in them.
#[inline]
pub fn first_line(bytes: &[u8]) -> Option<(&[u8], &[u8])>
    ensures line { IfSome result (λ (line, behind). IsFirstLine bytes.now line.now behind.now) }
    ensures none { IfNone result (IsWithinLine bytes.now) }
{
    let (line, ends) = up_to_newline(bytes);
    if ends {
        Some((line, &bytes[line.len() + 1..]))
    } else {
        None
    }
}

/// Adds bytes to a line, or begins it anew with them.
fn keep(line: &mut Vec<u8>, anew: bool, bytes: &[u8]) -> Result<(), AllocError>
    ensures ok { OnOk result (line.new.items ≡ (if anew then [] else line.old.items) ++ bytes.now) }
    ensures err { OnErr result (line.new.items ≡ line.old.items) }
{
    if anew {
        // The old line stands until there is room for the new one.
        line.reserve(bytes.len().saturating_sub(line.len()))?;
        line.clear();
    }
    line.extend_from_slice(bytes)?;
    Ok(())
}

impl LineReader {
    /// A reader at the start of a file; takes no memory.
    pub fn new(alloc: Global, limits: &Limits) -> LineReader
        ensures start { result ≡ start limits.now.line_bytes limits.now.lines }
    {
        LineReader {
            line: Vec::new(alloc),
            whole: true,
            number: 0,
            line_bytes: limits.line_bytes(),
            lines: limits.lines(),
            failed: None,
        }
    }

    /// A reader behind so many lines of a file, which others have read.
    pub fn behind(alloc: Global, limits: &Limits, lines: u64) -> LineReader
        requires counted { lines ≤ limits.now.lines }
        ensures start { result ≡ record (start limits.now.line_bytes limits.now.lines) { number = lines } }
    {
        LineReader {
            line: Vec::new(alloc),
            whole: true,
            number: lines,
            line_bytes: limits.line_bytes(),
            lines: limits.lines(),
            failed: None,
        }
    }

    /// The number of the line that ended last, from 1; 0 before the first.
    /// For callers outside: the program does not use it.
    pub fn number(&self) -> u64
        ensures number { result ≡ self.now.number }
    {
        self.number
    }

    /// The bytes of the line that `take` ended or goes on with, without its newline.
    #[inline]
    pub fn line(&self) -> &[u8]
        ensures line { result.now ≡ self.now.line }
    {
        self.line.as_slice()
    }

    /// Takes bytes up to and with the first newline, or all of the piece. The next call after a
    /// whole line begins a new one. For callers outside: the program does not use it.
    pub fn take(&mut self, piece: &[u8]) -> Result<Taken, LineFault>
        requires some { 0 < length piece.now }
        ensures ok { IfOk result (λ taken. Takes self.old self.new piece.now taken.used
            (if taken.whole then Some self.new.line else None)) }
        ensures err { IfErr result (λ fault. Refuses self.old self.new piece.now fault) }
        ensures line_bytes { IsErrOf result LineFault.LineBytes ↔ PassesLineBytes self.old piece.now }
        ensures file_lines { IsErrOf result LineFault.FileLines ↔ PassesFileLines self.old }
        ensures limits { KeepsLimits self.new }
    {
        let (front, whole) = self.admit(piece)?;
        self.add(front, whole)?;
        let used = front.len() + usize::from(whole);
        Ok(Taken { used, whole })
    }

    /// Takes as many bytes as `take`, and copies none of a line that lies whole in the piece.
    #[inline]
    pub fn take_line<'p>(&mut self, piece: &'p [u8]) -> Result<Cut<'p>, LineFault>
        requires some { 0 < length piece.now }
        ensures ok { IfOk result (λ cut. Takes self.old self.new piece.now cut.used
            (ended_line cut.line self.new.line)) }
        ensures err { IfErr result (λ fault. Refuses self.old self.new piece.now fault) }
        ensures line_bytes { IsErrOf result LineFault.LineBytes ↔ PassesLineBytes self.old piece.now }
        ensures file_lines { IsErrOf result LineFault.FileLines ↔ PassesFileLines self.old }
        ensures limits { KeepsLimits self.new }
        // A line that begins in the piece is neither copied nor refused for want of memory.
        ensures lent { IsTrue self.old.whole → IfOk result (λ cut. cut.line ≢ Line.InReader) }
        ensures memory { IsTrue self.old.whole → Contains piece.now NEWLINE → IsErrOf result LineFault.OutOfMemory → ⊥ }
    {
        let (front, whole) = self.admit(piece)?;
        let used = front.len() + usize::from(whole);
        if whole && self.whole {
            self.number += 1;
            return Ok(Cut {
                used,
                line: Line::InPiece(front),
            });
        }
        self.add(front, whole)?;
        let line = if whole { Line::InReader } else { Line::Open };
        Ok(Cut { used, line })
    }

    /// Ends the last line of a file, where it has no newline and at least one byte; it is then `line`.
    pub fn finish(&mut self) -> bool
        ensures last { IsTrue result ↔ (begun self.old ≢ []) }
        ensures lines { lines_of (begun self.old) ≡ (if result then self.new.line ∷ [] else []) }
        ensures ended { OnTrue result (self.new ≡ ended self.old) }
        ensures unchanged { OnFalse result (self.new ≡ self.old) }
        ensures fits { OnTrue result (length self.new.line ≤ self.old.line_bytes) }
        ensures limits { KeepsLimits self.new }
    {
        if self.whole {
            return false;
        }
        self.whole = true;
        self.number += 1;
        true
    }

    /// The bytes of a piece before its first newline, and whether it has one, where the line that
    /// is begun may have them. A limit that was passed stays passed.
    #[inline]
    fn admit<'p>(&mut self, piece: &'p [u8]) -> Result<(&'p [u8], bool), LineFault>
        requires some { 0 < length piece.now }
        ensures front { IfOk result (λ (front, ends). IsFront piece.now front.now ends) }
        ensures fits { IfOk result (λ (front, _). Admits self.old (length front.now)) }
        ensures unchanged { OnOk result (self.new ≡ self.old) }
        ensures err { IfErr result (λ fault. Refuses self.old self.new piece.now fault) }
        ensures line_bytes { IsErrOf result LineFault.LineBytes ↔ PassesLineBytes self.old piece.now }
        ensures file_lines { IsErrOf result LineFault.FileLines ↔ PassesFileLines self.old }
        ensures memory { IsErrOf result LineFault.OutOfMemory → ⊥ }
        ensures limits { KeepsLimits self.new }
    {
        let (front, ends) = up_to_newline(piece);
        match self.refusal(front.len()) {
            None => Ok((front, ends)),
            Some(fault) => {
                self.failed = Some(fault);
                Err(fault)
            }
        }
    }

    /// The limit that is passed where so many bytes come to the line that is begun.
    #[inline]
    fn refusal(&self, more: usize) -> Option<LineFault>
        ensures none { IfNone result (Admits self.now more) }
        ensures line_bytes { result ≡ Some LineFault.LineBytes ↔ GrowsTooLong self.now more }
        ensures file_lines { result ≡ Some LineFault.FileLines ↔ PassesFileLines self.now }
        ensures memory { result ≢ Some LineFault.OutOfMemory }
        ensures limits { KeepsLimits self.now }
    {
        let begun = if self.whole { 0 } else { self.line.len() };
        match self.failed {
            Some(fault) => Some(fault),
            None if self.number == self.lines => Some(LineFault::FileLines),
            None if more as u64 > self.line_bytes - begun as u64 => Some(LineFault::LineBytes),
            None => None,
        }
    }

    /// Adds bytes to the line that is begun, and ends it where a newline follows them.
    fn add(&mut self, bytes: &[u8], ends: bool) -> Result<(), LineFault>
        requires fits { Admits self.old (length bytes.now) }
        requires within_line { IsWithinLine bytes.now }
        requires has_bytes { ends ≡ false → 0 < length bytes.now }
        ensures ok { OnOk result (self.new ≡ grown self.old bytes.now ends) }
        ensures err { IfErr result (λ fault. fault ≡ LineFault.OutOfMemory) }
        ensures unchanged { OnErr result (self.new ≡ self.old) }
        ensures limits { KeepsLimits self.new }
    {
        keep(&mut self.line, self.whole, bytes)?;
        self.whole = ends;
        self.number += u64::from(ends);
        Ok(())
    }
}
