//! The limits that a run keeps, so that no input makes it work or store without end.
ghost use Rattle.std.specs.Prelude.{◌≡◌, ◌≤◌, ◌↔◌, IsSome, IfSome};
ghost use Rattle.osm_base.specs.bounds.Limits.{IsWithinStandard, standard};

use std::marker::Model;

/// The most bytes of a line, without its newline.
pub const MAX_LINE_BYTES: u64 = 4_194_304;

/// The most lines of a file, skipped ones too.
pub const MAX_LINES: u64 = 16_777_216;

/// The most objects of a file.
pub const MAX_ENTRIES: u64 = 4_194_304;

/// The most pages of a store.
pub const MAX_PAGES: u64 = 268_435_456;

/// The most keys that one change makes wait.
pub const MAX_PENDING: u64 = 16_777_216;

/// How much of something there may be, as somebody asks for it.
#[derive(Clone, Copy, Debug, PartialEq, Eq)]
pub struct LimitNumbers {
    /// Bytes of a line, without its newline.
    pub line_bytes: u64,
    /// Lines of a file, skipped ones too.
    pub lines: u64,
    /// Objects of a file.
    pub entries: u64,
    /// Pages of a store.
    pub pages: u64,
    /// Keys that one change makes wait.
    pub pending: u64,
}

/// How much of something there may be: none of the numbers is above that of `standard`.
#[derive(Clone, Copy, Debug, PartialEq, Eq)]
pub struct Limits {
    numbers: LimitNumbers,
}

/// What passed its limit.
#[derive(Clone, Copy, Debug, PartialEq, Eq)]
pub enum LimitKind {
    LineBytes,
    FileLines,
    FileEntries,
    StyleBytes,
    BoundsBytes,
    QueryBytes,
    Pages,
    Pending,
    Changes,
}

impl Model for Limits {
    ghost use Rattle.osm_base.specs.declared.bounds.limits.LimitNumbers.{LimitNumbers};
    ghost use Rattle.osm_base.specs.bounds.Limits.{IsWithinStandard};

    ghost Value = { LimitNumbers };

    ghost view = { λ limits. limits.numbers };

    ghost inverse = { λ numbers. record { numbers = numbers } };

    ghost invariant = { λ limits. IsWithinStandard limits.numbers };
}

impl Limits {
    /// The limits of the program, the greatest that there are.
    pub fn standard() -> Self
        ensures numbers { result ≡ standard }
    {
        Self {
            numbers: LimitNumbers {
                line_bytes: MAX_LINE_BYTES,
                lines: MAX_LINES,
                entries: MAX_ENTRIES,
                pages: MAX_PAGES,
                pending: MAX_PENDING,
            },
        }
    }

    /// Limits with these numbers. `None`: one of them is above that of the program.
    pub fn new(numbers: LimitNumbers) -> Option<Self>
        ensures within { IsSome result ↔ IsWithinStandard numbers }
        ensures numbers { IfSome result (λ limits. limits ≡ numbers) }
    {
        let within = numbers.line_bytes <= MAX_LINE_BYTES
            && numbers.lines <= MAX_LINES
            && numbers.entries <= MAX_ENTRIES
            && numbers.pages <= MAX_PAGES
            && numbers.pending <= MAX_PENDING;
        if within { Some(Self { numbers }) } else { None }
    }

    /// All the numbers.
    pub fn numbers(&self) -> LimitNumbers
        ensures numbers { result ≡ self.now }
        ensures within { IsWithinStandard result }
    {
        self.numbers
    }

    /// Bytes of a line, without its newline.
    pub fn line_bytes(&self) -> u64
        ensures number { result ≡ self.now.line_bytes }
        ensures most { result ≤ MAX_LINE_BYTES }
    {
        self.numbers.line_bytes
    }

    /// Lines of a file, skipped ones too.
    pub fn lines(&self) -> u64
        ensures number { result ≡ self.now.lines }
        ensures most { result ≤ MAX_LINES }
    {
        self.numbers.lines
    }

    /// Objects of a file.
    pub fn entries(&self) -> u64
        ensures number { result ≡ self.now.entries }
        ensures most { result ≤ MAX_ENTRIES }
    {
        self.numbers.entries
    }

    /// Pages of a store.
    pub fn pages(&self) -> u64
        ensures number { result ≡ self.now.pages }
        ensures most { result ≤ MAX_PAGES }
    {
        self.numbers.pages
    }

    /// Keys that one change makes wait.
    pub fn pending(&self) -> u64
        ensures number { result ≡ self.now.pending }
        ensures most { result ≤ MAX_PENDING }
    {
        self.numbers.pending
    }
}
