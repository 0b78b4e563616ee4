//! Why an example ends before its last step.
ghost use Rattle.std.specs.Prelude.{◌≡◌};

use opl_files::FileFault;
use osm_base::OutOfMemory;
use std::alloc::AllocError;
use update_flow::FlowFault;

/// Why an example ends before its last step.
#[derive(Clone, Copy)]
pub enum End {
    /// After so many changes this is other than it has to be.
    Differs(Part, u64),
    /// A text of entries does not read.
    File(FileFault),
    /// A store refuses.
    Refused(FlowFault),
}

/// What is other than it has to be.
#[derive(Clone, Copy)]
pub enum Part {
    Workers,
    Version,
    Tables,
    Delta,
    Tiles,
    /// A deed makes no difference.
    Deed,
    /// A store is neither that before a deed nor that after it.
    Store,
    /// A block of a feed is not taken.
    Block,
}

/// Adds the text of an end.
pub fn push_end(text: &mut String, end: End) -> Result<(), AllocError> {
    match end {
        End::Differs(part, changes) => {
            let part = part_text(part);
            write!(text, "{part} after change {changes}")
        }
        End::File(fault) => write!(text, "{fault}"),
        End::Refused(fault) => write!(text, "{fault}"),
    }
}

// The word for a part.
fn part_text(part: Part) -> &'static str {
    match part {
        Part::Workers => "workers",
        Part::Version => "version",
        Part::Tables => "tables",
        Part::Delta => "delta",
        Part::Tiles => "tiles",
        Part::Deed => "deed",
        Part::Store => "store",
        Part::Block => "block",
    }
}

impl From<FileFault> for End {
    fn from(fault: FileFault) -> Self {
        End::File(fault)
    }
}

impl From<FlowFault> for End {
    fn from(fault: FlowFault) -> Self {
        End::Refused(fault)
    }
}

impl From<OutOfMemory> for End {
    fn from(_: OutOfMemory) -> Self {
        End::Refused(FlowFault::OutOfMemory)
    }
}

impl From<AllocError> for End {
    fn from(_: AllocError) -> Self {
        End::Refused(FlowFault::OutOfMemory)
    }
}
