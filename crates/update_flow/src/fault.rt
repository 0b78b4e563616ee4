//! Why a store cannot be opened, looked at or taken a step further.
ghost use Rattle.std.specs.Prelude.{◌≡◌};
ghost use Rattle.update_flow.specs.Faults.{of_store};
ghost use Rattle.update_flow.specs.Steps.{of_step};
ghost use Rattle.update_flow.specs.declared.fault.FlowFault.TheVariants.{OutOfMemory};

use osm_base::OutOfMemory as NoMemory;
use page_journal::StoreFault;
use std::alloc::{AllocError, AllocFailed};
use thiserror::Error;
use update_step::StepFault;

/// The number of changes after which no further one can be counted.
pub const LAST_CHANGE: u64 = 9_223_372_036_854_775_807;

/// Why a store cannot be opened, looked at or taken a step further.
#[derive(Clone, Copy, Debug, PartialEq, Eq, Error)]
pub enum FlowFault {
    /// The store refuses, other than for want of memory.
    #[error("{0}")]
    Store(StoreFault),
    #[error("not imported")]
    NotImported,
    #[error("already imported")]
    AlreadyImported,
    /// A program of before made the store, and it was not migrated since.
    #[error("old format")]
    OldFormat,
    /// The store has had as many changes as can be counted.
    #[error("no further change can be counted")]
    LastChange,
    /// A change makes so many objects wait, more than the limit.
    #[error("{value} objects would wait")]
    TooMany { value: u64 },
    #[error("out of memory")]
    OutOfMemory,
}

/// Why a follower's store does not take a block.
#[derive(Clone, Copy, Debug, PartialEq, Eq, Error)]
pub enum FollowFault {
    /// The store refuses.
    #[error("{0}")]
    Flow(FlowFault),
    /// It has no tables yet that a change could be made of.
    #[error("not imported")]
    NotImported,
    /// A version is missing between the one that the store has and the one that comes.
    #[error("have {have}, got {got}")]
    Gap { have: u64, got: u64 },
}

impl From<NoMemory> for FlowFault {
    ghost from_gives = { λ _ fault. fault ≡ OutOfMemory };

    fn from(_: NoMemory) -> Self {
        FlowFault::OutOfMemory
    }
}

impl From<AllocError> for FlowFault {
    ghost from_gives = { λ _ fault. fault ≡ OutOfMemory };

    fn from(_: AllocError) -> Self {
        FlowFault::OutOfMemory
    }
}

impl<T: Drop> From<AllocFailed<T>> for FlowFault {
    ghost from_gives = { λ _ fault. fault ≡ OutOfMemory };

    fn from(_: AllocFailed<T>) -> Self {
        FlowFault::OutOfMemory
    }
}

/// A refusal of the store below.
pub fn store_fault(fault: StoreFault) -> FlowFault
    ensures { result ≡ of_store fault }
{
    match fault {
        StoreFault::OutOfMemory => FlowFault::OutOfMemory,
        fault => FlowFault::Store(fault),
    }
}

/// A refusal of the step below.
pub(crate) fn step_fault(why: StepFault<StoreFault>) -> FlowFault
    ensures { result ≡ of_step why }
{
    match why {
        StepFault::Store(fault) => store_fault(fault),
        StepFault::TooMany { value } => FlowFault::TooMany { value },
        StepFault::OutOfMemory => FlowFault::OutOfMemory,
    }
}
