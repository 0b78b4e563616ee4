//! The blocks of a file, one after another.
ghost use Rattle.std.specs.Prelude.{◌≡◌, ◌<◌, ◌≤◌, ◌+◌, ◌++◌, ℕ, List, [], Ok, true, false, codes, length, IfOk, IfErr, IfSome, OnOk};
ghost use Rattle.std.specs.Option.{option_copied};
ghost use Rattle.outside.specs.Reads.{ReadsNoOther, MovesBytes};
ghost use Rattle.opl_lines.specs.Lines.{IsWithinLine, lines_of};
ghost use Rattle.opl_lines.specs.Reading.{begun, room};
ghost use Rattle.outside.specs.Bytes.{BothKnown};
ghost use Rattle.outside.specs.Causes.{Rose};
ghost use Rattle.delta_feed.specs.Blocks.{Comes, goes_on, is_full, refused};
ghost use Rattle.delta_feed.specs.Feeding.{GivesBlock, IsEnough, IsGoing, IsLineFault, IsOnward, IsReading, IsSameReader, IsSeen, IsTurnFault, IsWithinLimits, Leads, PassesLimit, TakesOne, TakesPiece, ended, lines_left, one_if, onward, says};
ghost use Rattle.delta_feed.specs.Line.{line_in, verb_of};
ghost use Rattle.delta_feed.specs.Place.{may_stand};
ghost use Rattle.delta_feed.specs.Stage.{place_of};
ghost use Rattle.delta_feed.specs.Turn.{IsTurn};
ghost use Rattle.delta_feed.specs.Sound.{IsFitLine, IsSound, IsSoundStage, IsSoundTurn};
ghost use Rattle.delta_feed.specs.ReadsOn.{ReadsOn};
ghost use Rattle.delta_feed.specs.Stops.{Stops, StopsAt};

use crate::ahead::Ahead;
use crate::block::Stage;
use crate::turn::{Turn, take_line};
use crate::{Block, FeedFault, FeedLine, FeedWhy, LINE_BYTES, LineRefused, SPACE, read_line};
use memchr::memchr;
use opl_lines::{LineFault, LineReader, NEWLINE};
use osm_base::{LimitKind, Limits, MAX_LINES};
use outside::Inputs;
use std::alloc::Global;
use style_read::Style;

/// Reads the blocks of a file, one after another.
#[derive(Drop)]
pub struct FeedReader {
    file: u32,
    limits: Limits,
    lines: LineReader,
    ahead: Ahead,
}

impl FeedReader {
    /// A reader at the start of a file; takes no memory.
    pub fn new(alloc: Global, file: u32, limits: &Limits) -> Self
        ensures going { IsGoing result }
        ensures file { result.file ≡ file }
        ensures limits { result.limits ≡ limits.now }
        ensures start { result.lines.number ≡ 0 }
        ensures left { (bytes : List ℕ) → lines_left result bytes ≡ lines_of bytes }
    {
        Self {
            file,
            limits: *limits,
            lines: LineReader::new(alloc, limits),
            ahead: Ahead::new(alloc),
        }
    }

    /// The next block, whose rows are read over `base` where it is a difference. `None`: the file is at its end.
    pub fn next<I: Inputs>(
        &mut self,
        alloc: Global,
        inputs: &mut I,
        base: Option<&Style>,
    ) -> Result<Option<Block>, FeedFault>
        requires going { IsGoing self.old }
        ensures going { OnOk result (IsGoing self.new) }
        ensures same { IsSameReader self.old self.new }
        ensures block { IfOk result (λ block. BothKnown ((I.view inputs.old).left self.old.file) ((I.view inputs.new).left self.old.file)
            (λ before after. GivesBlock (option_copied base.entry) self.old self.new (lines_left self.old before) (lines_left self.new after) block)) }
        ensures sound { IfOk result (λ block. IfSome block (IsSound (option_copied base.entry))) }
        ensures number { IfOk result (λ block. IfSome block (λ _. (self.old.lines.number < self.new.lines.number) × (self.new.lines.number ≤ self.old.limits.lines))) }
        ensures stopped { IfErr result (Stops (λ fault. IfSome ((I.view inputs.old).left self.old.file)
            (λ before. Comes self.old.limits (option_copied base.entry) Stage.Between self.old.lines.number (lines_left self.old before) (refused fault)))
            (Rose (I.view inputs.old).faults (I.view inputs.new).faults)) }
        ensures read { ReadsNoOther self.old.file (λ asked. I.reads inputs.old asked inputs.new) (I.view inputs.old) (I.view inputs.new) }
    {
        let mut stage = Stage::Between;
        loop {
            match self.turn(alloc, inputs, base, stage) {
                Ok(Some(Turn::On(next))) => stage = next,
                Ok(Some(Turn::Whole(block))) => return Ok(Some(block.into_block())),
                Ok(_) => return Ok(None),
                Err(fault) => return Err(fault),
            }
        }
    }

    /// Takes a line, where there is one, and answers what it makes of so much of a block.
    fn turn<I: Inputs>(
        &mut self,
        alloc: Global,
        inputs: &mut I,
        base: Option<&Style>,
        stage: Stage,
    ) -> Result<Option<Turn>, FeedFault>
        requires going { IsGoing self.old }
        requires sound { IsSoundStage (option_copied base) stage }
        ensures going { OnOk result (IsGoing self.new) }
        ensures turn { IfOk result (λ turn. BothKnown ((I.view inputs.old).left self.old.file) ((I.view inputs.new).left self.old.file)
            (λ before after. Leads (option_copied base.entry) stage self.old self.new (lines_left self.old before) (lines_left self.new after) turn)) }
        ensures sound { IfOk result (λ turn. IfSome turn (IsSoundTurn (option_copied base.entry))) }
        ensures number { IfOk result (λ turn. IfSome turn (λ _. (self.old.lines.number < self.new.lines.number) × (self.new.lines.number ≤ self.old.limits.lines))) }
        ensures reads { ReadsOn result (λ fault. IfSome ((I.view inputs.old).left self.old.file)
            (λ before. Comes self.old.limits (option_copied base.entry) stage self.old.lines.number (lines_left self.old before) (refused fault)))
            (λ asked. I.reads inputs.old asked inputs.new) self.old self.new (I.view inputs.old) (I.view inputs.new) }
    {
        match self.next_line(alloc, inputs) {
            Ok(true) => {}
            Ok(false) => return self.end(stage),
            Err(fault) => return Err(fault),
        }
        let read = match self.read(alloc, &stage) {
            Ok(read) => read,
            Err(fault) => return Err(fault),
        };
        let goes_on = match self.goes_on(alloc, inputs, &read) {
            Ok(goes_on) => goes_on,
            Err(fault) => return Err(fault),
        };
        self.take(alloc, base, stage, read, goes_on)
    }

    /// No line comes any more behind so much of a block.
    fn end(&self, stage: Stage) -> Result<Option<Turn>, FeedFault>
        requires going { IsGoing self.now }
        ensures end { result ≡ ended stage self.now.lines.number }
    {
        match stage {
            Stage::Between => Ok(None),
            _ => Err(FeedFault::Bad {
                line: self.number() + 1,
                why: FeedWhy::End,
            }),
        }
    }

    /// How many lines were taken.
    fn number(&self) -> u32
        requires going { IsGoing self.now }
        ensures number { result ≡ self.now.lines.number }
        ensures most { result ≤ MAX_LINES }
    {
        // No limit is above that of the program, so the number fits.
        let _most = self.limits.lines();
        self.lines.number() as u32
    }

    /// What the line that was taken says, behind so much of a block.
    fn read(&self, alloc: Global, stage: &Stage) -> Result<FeedLine, FeedFault>
        requires going { IsGoing self.now }
        ensures line { IfOk result (λ read. line_in (place_of stage.now) self.now.lines.line ≡ Ok read) }
        ensures stands { IfOk result (λ read. may_stand (place_of stage.now) (verb_of read) ≡ true) }
        ensures fits { IfOk result IsFitLine }
        ensures stopped { IfErr result (StopsAt (IsLineFault stage.now self.now.lines.number self.now.lines.line)) }
    {
        match read_line(alloc, stage.place(), self.lines.line()) {
            Ok(read) => Ok(read),
            Err(LineRefused::Bad(why)) => Err(FeedFault::Bad {
                line: self.number(),
                why,
            }),
            Err(LineRefused::OutOfMemory) => Err(FeedFault::OutOfMemory),
        }
    }

    /// What the line that was taken makes of so much of a block.
    fn take(
        &self,
        alloc: Global,
        base: Option<&Style>,
        stage: Stage,
        read: FeedLine,
        goes_on: bool,
    ) -> Result<Option<Turn>, FeedFault>
        requires going { IsGoing self.now }
        ensures turn { IfOk result (λ turn. IfSome turn (λ turn. IsTurn (option_copied base.entry) stage read goes_on (Ok turn))) }
        ensures some { IfOk result IsOnward }
        ensures stopped { IfErr result (StopsAt (IsTurnFault (option_copied base.entry) stage read goes_on self.now.lines.number)) }
    {
        match take_line(alloc, base, stage, read, goes_on) {
            Ok(turn) => self.onward(turn),
            Err(LineRefused::Bad(why)) => Err(FeedFault::Bad {
                line: self.number(),
                why,
            }),
            Err(LineRefused::OutOfMemory) => Err(FeedFault::OutOfMemory),
        }
    }

    /// A turn, unless a difference began that differs from nothing.
    fn onward(&self, turn: Turn) -> Result<Option<Turn>, FeedFault>
        requires going { IsGoing self.now }
        ensures onward { result ≡ onward turn self.now.lines.number }
    {
        match turn {
            Turn::NoBase => Err(FeedFault::NoBase {
                line: self.number(),
            }),
            Turn::On(stage) => Ok(Some(Turn::On(stage))),
            Turn::Whole(block) => Ok(Some(Turn::Whole(block))),
        }
    }

    /// Whether the bytes of a line go on in the next one. Only behind a line with the most digits is there a look at what comes.
    fn goes_on<I: Inputs>(
        &mut self,
        alloc: Global,
        inputs: &mut I,
        read: &FeedLine,
    ) -> Result<bool, FeedFault>
        requires going { IsGoing self.old }
        ensures going { IsGoing self.new }
        ensures lines { self.new.lines ≡ self.old.lines }
        ensures value { IfOk result (λ value. BothKnown ((I.view inputs.old).left self.old.file) ((I.view inputs.new).left self.old.file)
            (λ before after. (lines_left self.old before ≡ lines_left self.new after) × (value ≡ goes_on read.now (lines_left self.new after)))) }
        ensures reads { ReadsOn result (λ _. ⊥) (λ asked. I.reads inputs.old asked inputs.new)
            self.old self.new (I.view inputs.old) (I.view inputs.new) }
    {
        if !is_full(read) {
            return Ok(false);
        }
        match self.look(alloc, inputs) {
            Ok(()) => Ok(begins_more(self.ahead.bytes())),
            Err(fault) => Err(fault),
        }
    }

    /// Reads on until the first word of the next line is there, or as much of it as `more` has.
    fn look<I: Inputs>(&mut self, alloc: Global, inputs: &mut I) -> Result<(), FeedFault>
        ensures lines { self.new.lines ≡ self.old.lines }
        ensures seen { OnOk result (BothKnown ((I.view inputs.old).left self.old.file) ((I.view inputs.new).left self.old.file)
            (IsSeen self.old.ahead self.new.ahead)) }
        ensures reads { ReadsOn result (λ _. ⊥) (λ asked. I.reads inputs.old asked inputs.new)
            self.old self.new (I.view inputs.old) (I.view inputs.new) }
    {
        while needs_more(self.ahead.bytes()) {
            match self.ahead.fill(alloc, inputs, self.file) {
                Ok(true) => {}
                Ok(false) => return Ok(()),
                Err(fault) => return Err(fault),
            }
        }
        Ok(())
    }

    /// Takes the next line, which is then that of `lines`. `false`: the file is at its end.
    fn next_line<I: Inputs>(&mut self, alloc: Global, inputs: &mut I) -> Result<bool, FeedFault>
        requires going { IsGoing self.old }
        ensures going { OnOk result (IsGoing self.new) }
        ensures line { IfOk result (λ taken. BothKnown ((I.view inputs.old).left self.old.file) ((I.view inputs.new).left self.old.file)
            (λ before after. TakesOne taken self.new.lines.line (lines_left self.old before) (lines_left self.new after))) }
        ensures number { IfOk result (λ taken. self.new.lines.number ≡ self.old.lines.number + one_if taken) }
        ensures fits { IfOk result (λ taken. taken ≡ true → IsWithinLimits self.old self.new.lines.line) }
        ensures reads { ReadsOn result (λ fault. IfSome ((I.view inputs.old).left self.old.file)
            (λ before. PassesLimit self.old (lines_left self.old before) fault))
            (λ asked. I.reads inputs.old asked inputs.new) self.old self.new (I.view inputs.old) (I.view inputs.new) }
    {
        loop {
            match self.piece(alloc, inputs) {
                Ok(true) => {}
                Ok(false) => return Ok(self.lines.finish()),
                Err(fault) => return Err(fault),
            }
            match self.take_piece() {
                Ok(true) => return Ok(true),
                Ok(false) => {}
                Err(fault) => return Err(fault),
            }
        }
    }

    /// Some bytes of the file that are not taken, which are read where there are none. `false`: the file is at its end.
    fn piece<I: Inputs>(&mut self, alloc: Global, inputs: &mut I) -> Result<bool, FeedFault>
        ensures lines { self.new.lines ≡ self.old.lines }
        ensures bytes { IfOk result (λ more. MovesBytes self.old.ahead self.new.ahead more
            ((I.view inputs.old).left self.old.file) ((I.view inputs.new).left self.old.file)) }
        ensures some { IfOk result (λ more. more ≡ true → 0 < length self.new.ahead) }
        ensures none { IfOk result (λ more. more ≡ false → self.new.ahead ≡ []) }
        ensures reads { ReadsOn result (λ _. ⊥) (λ asked. I.reads inputs.old asked inputs.new)
            self.old self.new (I.view inputs.old) (I.view inputs.new) }
    {
        if self.ahead.bytes().is_empty() {
            return self.ahead.fill(alloc, inputs, self.file);
        }
        Ok(true)
    }

    /// Takes bytes up to and with a newline, or all. `true`: a line ended, which is now that of `lines`.
    fn take_piece(&mut self) -> Result<bool, FeedFault>
        requires some { 0 < length self.old.ahead }
        requires ready { IsReading self.old }
        ensures ready { OnOk result (IsReading self.new) }
        ensures same { IsSameReader self.old self.new }
        ensures taken { IfOk result (λ whole. TakesPiece self.old self.new whole) }
        ensures room { OnOk result (room self.new.lines < room self.old.lines) }
        ensures stopped { IfErr result (StopsAt (λ fault. (later : List ℕ)
            → PassesLimit self.old (lines_of (begun self.old.lines ++ (self.old.ahead ++ later))) fault)) }
    {
        match self.lines.take(self.ahead.bytes()) {
            Ok(taken) => {
                self.ahead.skip(taken.used);
                Ok(taken.whole)
            }
            Err(fault) => Err(limit_fault(&self.limits, fault)),
        }
    }
}

/// The fault of a limit of lines.
fn limit_fault(limits: &Limits, fault: LineFault) -> FeedFault
    ensures line_bytes { fault ≡ LineFault.LineBytes → result ≡ FeedFault.Limit LimitKind.LineBytes (limits.now.line_bytes + 1) }
    ensures file_lines { fault ≡ LineFault.FileLines → result ≡ FeedFault.Limit LimitKind.FileLines (limits.now.lines + 1) }
    ensures memory { fault ≡ LineFault.OutOfMemory → result ≡ FeedFault.OutOfMemory }
{
    match fault {
        LineFault::LineBytes => FeedFault::Limit {
            which: LimitKind::LineBytes,
            value: limits.line_bytes() + 1,
        },
        LineFault::FileLines => FeedFault::Limit {
            which: LimitKind::FileLines,
            value: limits.lines() + 1,
        },
        LineFault::OutOfMemory => FeedFault::OutOfMemory,
    }
}

/// Whether a line has the most digits.
fn is_full(read: &FeedLine) -> bool
    ensures value { result ≡ is_full read.now }
{
    match read {
        FeedLine::Style(bytes) | FeedLine::Set(_, bytes) | FeedLine::More(bytes) => {
            bytes.as_slice().len() == LINE_BYTES
        }
        _ => false,
    }
}

/// Whether more bytes are needed to tell whether a line begins with the word `more`.
fn needs_more(bytes: &[u8]) -> bool
    ensures within { result ≡ true → IsWithinLine bytes.now }
    ensures seen { result ≡ false → IsEnough bytes.now }
    ensures few { result ≡ true → length bytes.now < 5 }
{
    bytes.len() < 5 && memchr(NEWLINE, bytes).is_none()
}

/// Whether the first word of these bytes is `more`.
fn begins_more(bytes: &[u8]) -> bool
    ensures value { result ≡ says (codes "more") bytes.now }
{
    match bytes {
        [b'm', b'o', b'r', b'e', rest @ ..] => ends_word(rest),
        _ => false,
    }
}

/// Whether a word ends in front of these bytes.
fn ends_word(bytes: &[u8]) -> bool
    ensures value { result ≡ says [] bytes.now }
{
    match bytes {
        [] => true,
        [byte, ..] => *byte == SPACE || *byte == NEWLINE,
    }
}
