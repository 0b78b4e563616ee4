//! Why a run ended early, with its status and its line of text.
ghost use Rattle.std.specs.Prelude.{◌≡◌, IfOk, [], ◌∷◌};
ghost use Rattle.run_promise.specs.Faults.{fault_of, fault_text, flow_fault, kind_text, limit_text, status_of};
ghost use Rattle.run_promise.specs.Followed.{feed_fault};
ghost use Rattle.run_promise.specs.Making.{of_made};
ghost use Rattle.run_promise.specs.Files.{bounds_fault, fault_in, query_fault, style_fault, whole_fault};

use crate::files::MAX_WHOLE;
use delta_feed::{FeedFault, FeedWhy};
use map_query::{QueryFault, QueryWhy};
use opl_files::{FileFault, WholeFault};
use opl_object::Why;
use osm_base::{Kind, LimitKind, OutOfMemory, Text};
use page_journal::StoreFault;
use std::alloc::Global;
use std::error::Error;
use std::fmt;
use style_read::{StyleFault, StylePart, StyleWhy};
use tile_cover::BoundsFault;
use update_flow::{FlowFault, LAST_CHANGE};

/// Why a run did not do all that it was asked to. A file is told by the place of its word.
#[derive(Clone, Copy, Debug)]
pub enum Fault {
    /// The words are no command.
    Usage,
    /// A line of a file is not in its form or not in its place.
    Malformed {
        file: u32,
        line: u32,
        why: Why,
    },
    /// A file is no style: this stands against this part of it.
    BadStyle {
        file: u32,
        why: StyleWhy,
        part: StylePart,
    },
    /// A file is no table of boundaries: this line is not good.
    BadBounds {
        file: u32,
        line: u32,
    },
    /// A file asks for something in a line that is no query, for this cause.
    BadQuery {
        file: u32,
        line: u32,
        why: QueryWhy,
    },
    /// A line of a feed is not good, for this cause.
    BadFeed {
        file: u32,
        line: u32,
        why: FeedWhy,
    },
    /// A block of a feed does not come next: the tables have seen fewer changes.
    Gap {
        file: u32,
        have: u64,
        got: u64,
    },
    /// There is more of something than there may be.
    Limit {
        which: LimitKind,
        value: u64,
    },
    /// A file could not be read.
    ReadFault {
        file: u32,
    },
    /// The disk holds no store.
    NotFormatted,
    /// The store is to be made on a disk that holds bytes.
    NotEmpty,
    /// Nothing was imported into the store yet.
    NotImported,
    /// Something was imported into the store before.
    AlreadyImported,
    /// The store is one of the old format, which `migrate` writes anew.
    OldFormat,
    /// The store is that of a follower.
    Follower,
    /// The store has no table of this name.
    UnknownTable,
    /// This page shows that the store is damaged.
    BadStore {
        page: u64,
    },
    /// The output took no more bytes.
    WriteFault,
    /// The disk of the store failed.
    DiskFault,
    /// There was no memory.
    OutOfMemory,
}

impl Fault {
    /// The fault of this file.
    pub fn in_file(file: u32, fault: FileFault) -> Self
        ensures fault { result ≡ fault_in file fault }
    {
        match fault {
            FileFault::Malformed { line, why } => Fault::Malformed { file, line, why },
            FileFault::Limit { which, value } => Fault::Limit { which, value },
            FileFault::ReadFault => Fault::ReadFault { file },
            FileFault::OutOfMemory => Fault::OutOfMemory,
        }
    }

    /// The fault of this file, which is read whole under a limit.
    pub fn in_whole(file: u32, which: LimitKind, fault: WholeFault) -> Self
        ensures fault { result ≡ whole_fault file which fault }
    {
        match fault {
            WholeFault::TooLong => Fault::Limit {
                which,
                value: MAX_WHOLE + 1,
            },
            WholeFault::ReadFault => Fault::ReadFault { file },
            WholeFault::OutOfMemory => Fault::OutOfMemory,
        }
    }

    /// The fault of the style in this file.
    pub fn in_style(file: u32, fault: StyleFault) -> Self
        ensures fault { result ≡ style_fault file fault }
    {
        match fault {
            StyleFault::Bad { why, part } => Fault::BadStyle { file, why, part },
            StyleFault::OutOfMemory => Fault::OutOfMemory,
        }
    }

    /// The fault of the boundaries in this file.
    pub fn in_bounds(file: u32, fault: BoundsFault) -> Self
        ensures fault { result ≡ bounds_fault file fault }
    {
        match fault {
            BoundsFault::Bad { line } => Fault::BadBounds { file, line },
            BoundsFault::OutOfMemory => Fault::OutOfMemory,
        }
    }

    /// The fault of the queries in this file.
    pub fn in_queries(file: u32, fault: QueryFault) -> Self
        ensures fault { result ≡ query_fault file fault }
    {
        match fault {
            QueryFault::Bad { line, why } => Fault::BadQuery { file, line, why },
            QueryFault::OutOfMemory => Fault::OutOfMemory,
        }
    }

    /// Why a block of this file is not read.
    pub fn in_feed(file: u32, fault: FeedFault) -> Self
        ensures fault { result ≡ feed_fault file fault }
    {
        match fault {
            FeedFault::Bad { line, why } => Fault::BadFeed { file, line, why },
            FeedFault::NoBase { .. } => Fault::NotImported,
            FeedFault::Limit { which, value } => Fault::Limit { which, value },
            FeedFault::ReadFault => Fault::ReadFault { file },
            FeedFault::OutOfMemory => Fault::OutOfMemory,
        }
    }

    /// The fault of a call on a store that is to be opened or is open.
    pub fn in_flow(fault: FlowFault) -> Self
        ensures fault { result ≡ flow_fault fault }
    {
        match fault {
            FlowFault::Store(fault) => Fault::in_store(fault),
            FlowFault::NotImported => Fault::NotImported,
            FlowFault::AlreadyImported => Fault::AlreadyImported,
            FlowFault::OldFormat => Fault::OldFormat,
            FlowFault::LastChange => Fault::Limit {
                which: LimitKind::Changes,
                value: LAST_CHANGE + 1,
            },
            FlowFault::TooMany { value } => Fault::Limit {
                which: LimitKind::Pending,
                value,
            },
            FlowFault::OutOfMemory => Fault::OutOfMemory,
        }
    }

    /// The fault of a store that was just made.
    pub fn in_made(fault: FlowFault) -> Self
        ensures fault { result ≡ flow_fault (of_made fault) }
    {
        match fault {
            FlowFault::Store(StoreFault::NotFormatted) => Fault::BadStore { page: 0 },
            fault => Fault::in_flow(fault),
        }
    }

    /// The fault of a store.
    pub fn in_store(fault: StoreFault) -> Self
        ensures fault { result ≡ fault_of fault }
    {
        match fault {
            StoreFault::NotFormatted => Fault::NotFormatted,
            StoreFault::NotEmpty => Fault::NotEmpty,
            StoreFault::BadStore { page } => Fault::BadStore { page },
            StoreFault::StoreFull { pages } => Fault::Limit {
                which: LimitKind::Pages,
                value: pages,
            },
            StoreFault::DiskFault | StoreFault::Broken => Fault::DiskFault,
            StoreFault::OutOfMemory => Fault::OutOfMemory,
        }
    }
}

/// The letter of a kind.
fn kind_letter(kind: Kind) -> char
    ensures letter { result ∷ [] ≡ kind_text kind }
{
    match kind {
        Kind::Node => 'n',
        Kind::Way => 'w',
        Kind::Relation => 'r',
    }
}

/// The name of a limit.
fn limit_name(which: LimitKind) -> &'static str
    ensures name { result.now ≡ limit_text which }
{
    match which {
        LimitKind::LineBytes => "line-bytes",
        LimitKind::FileLines => "file-lines",
        LimitKind::FileEntries => "file-entries",
        LimitKind::StyleBytes => "style-bytes",
        LimitKind::BoundsBytes => "bounds-bytes",
        LimitKind::QueryBytes => "query-bytes",
        LimitKind::Pages => "pages",
        LimitKind::Pending => "pending",
        LimitKind::Changes => "changes",
    }
}

/// How a run ended.
#[derive(Clone, Copy, Debug)]
pub struct Outcome {
    /// The status that the process ends with.
    pub status: u8,
    /// `None`: the run did all that it was asked to.
    pub fault: Option<Fault>,
}

impl Outcome {
    /// The outcome with this fault.
    pub fn of(fault: Option<Fault>) -> Self
        ensures status { result ≡ record { status = status_of fault; fault = fault } }
    {
        let status = match fault {
            None => 0,
            Some(Fault::Usage) => 2,
            Some(Fault::Malformed { .. }) => 3,
            Some(Fault::BadStyle { .. }) => 4,
            Some(Fault::BadBounds { .. }) => 5,
            Some(
                Fault::NotFormatted
                | Fault::NotEmpty
                | Fault::NotImported
                | Fault::AlreadyImported
                | Fault::OldFormat
                | Fault::Follower
                | Fault::BadStore { .. },
            ) => 6,
            Some(Fault::ReadFault { .. }) => 7,
            Some(Fault::WriteFault) => 8,
            Some(Fault::DiskFault) => 9,
            Some(Fault::Limit { .. }) => 10,
            Some(Fault::OutOfMemory) => 11,
            Some(Fault::BadQuery { .. } | Fault::UnknownTable) => 12,
            Some(Fault::Gap { .. }) => 14,
            Some(Fault::BadFeed { .. }) => 15,
        };
        Self { status, fault }
    }
}

/// The line that tells a fault, without a newline.
pub fn fault_line(alloc: Global, fault: &Fault) -> Result<Text, OutOfMemory>
    ensures line { IfOk result (λ line. line ≡ fault_text fault.now) }
{
    Ok(Text::from_string(fault.to_string(alloc)?))
}

impl fmt::Display for Fault {
    ghost use Rattle.std.specs.Prelude.{Some};
    ghost use Rattle.run_promise.specs.Faults.{fault_text};

    ghost output = { λ fault. Some (fault_text fault) };

    fn fmt<W: fmt::Write>(&self, f: &mut fmt::Formatter<W>) -> fmt::Result {
        match self {
            Fault::Usage => f.write_str("usage"),
            Fault::Malformed { file, line, why } => write!(
                f,
                "malformed file {file} line {line} cause {}{}",
                why.number(),
                WrongOrder { why: *why }
            ),
            Fault::BadStyle { file, why, part } => write!(
                f,
                "bad style file {file} cause {} part {}",
                why.number(),
                PartName { part: *part }
            ),
            Fault::BadBounds { file, line } => write!(f, "bad bounds file {file} line {line}"),
            Fault::BadQuery { file, line, why } => write!(
                f,
                "bad query file {file} line {line} cause {}",
                why.number()
            ),
            Fault::BadFeed { file, line, why } => write!(
                f,
                "bad feed file {file} line {line} cause {}",
                why.number()
            ),
            Fault::Gap { file, have, got } => { write!(f, "gap file {file} have {have} got {got}") }
            Fault::Limit { which, value } => {
                write!(f, "limit {} value {value}", limit_name(*which))
            }
            Fault::ReadFault { file } => write!(f, "read fault file {file}"),
            Fault::NotFormatted => f.write_str("not formatted"),
            Fault::NotEmpty => f.write_str("not empty"),
            Fault::NotImported => f.write_str("not imported"),
            Fault::AlreadyImported => f.write_str("already imported"),
            Fault::OldFormat => f.write_str("old format"),
            Fault::Follower => f.write_str("follower"),
            Fault::UnknownTable => f.write_str("unknown table"),
            Fault::BadStore { page } => write!(f, "bad store page {page}"),
            Fault::WriteFault => f.write_str("write fault"),
            Fault::DiskFault => f.write_str("disk fault"),
            Fault::OutOfMemory => f.write_str("out of memory"),
        }
    }
}

impl Error for Fault {}

/// The two keys whose order is wrong, where that is why a line is malformed.
#[derive(Drop)]
struct WrongOrder {
    why: Why,
}

impl fmt::Display for WrongOrder {
    ghost use Rattle.std.specs.Prelude.{Some};
    ghost use Rattle.run_promise.specs.Faults.{order_text};

    ghost output = { λ own. Some (order_text own.why) };

    fn fmt<W: fmt::Write>(&self, f: &mut fmt::Formatter<W>) -> fmt::Result {
        match self.why {
            Why::Order { earlier, later } => write!(
                f,
                " {}{} {}{}",
                kind_letter(earlier.kind),
                earlier.id,
                kind_letter(later.kind),
                later.id
            ),
            _ => Ok(()),
        }
    }
}

/// A part of a style, as a line of text names it.
#[derive(Drop)]
struct PartName {
    part: StylePart,
}

impl fmt::Display for PartName {
    ghost use Rattle.std.specs.Prelude.{Some};
    ghost use Rattle.run_promise.specs.Faults.{part_text};

    ghost output = { λ own. Some (part_text own.part) };

    fn fmt<W: fmt::Write>(&self, f: &mut fmt::Formatter<W>) -> fmt::Result {
        match self.part {
            StylePart::Top => write!(f, "top"),
            StylePart::Selection(number) => write!(f, "selection {number}"),
            StylePart::Table(number) => write!(f, "table {number}"),
        }
    }
}

impl From<OutOfMemory> for Fault {
    ghost use Rattle.std.specs.Prelude.{◌≡◌};
    ghost use Rattle.run_promise.specs.declared.fault.Fault.TheVariants.{OutOfMemory};

    ghost from_gives = { λ _ fault. fault ≡ OutOfMemory };

    fn from(_: OutOfMemory) -> Self {
        Fault::OutOfMemory
    }
}
