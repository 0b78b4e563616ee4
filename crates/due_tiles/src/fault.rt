//! Why bytes are read as no set of tiles, and why the text of a set is not written.
ghost use Rattle.std.specs.Prelude.{◌≡◌};
ghost use Rattle.due_tiles.specs.declared.fault.DueFault.TheVariants.{OutOfMemory};
ghost use Rattle.due_tiles.specs.declared.fault.TilesFault.TheVariants.{OutOfMemory as NoRoom};

use osm_base::OutOfMemory as NoMemory;
use thiserror::Error;

/// Why bytes are read as no set of tiles.
#[derive(Clone, Copy, Debug, PartialEq, Eq, Error)]
pub enum DueFault {
    #[error("no set of tiles has these bytes")]
    NotSpelled,
    #[error("out of memory")]
    OutOfMemory,
}

impl From<NoMemory> for DueFault {
    ghost from_gives = { λ _ fault. fault ≡ OutOfMemory };

    fn from(_: NoMemory) -> Self {
        DueFault::OutOfMemory
    }
}

/// Why the text of tiles is not written.
#[derive(Clone, Copy, Debug, PartialEq, Eq, Error)]
pub enum TilesFault {
    #[error("the output failed")]
    WriteFault,
    #[error("out of memory")]
    OutOfMemory,
}

impl From<NoMemory> for TilesFault {
    ghost from_gives = { λ _ fault. fault ≡ NoRoom };

    fn from(_: NoMemory) -> Self {
        TilesFault::OutOfMemory
    }
}
