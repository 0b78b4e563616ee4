//! What every run of the program promises, and the laws that follow for each command, without a line of the code that runs.
//!
//! A run is what it makes of a `World`: files, a disk and an output. `specs/CommandOf.antt` has the commands, as words
//! ask for them. `specs/Courses.antt` says of each what it does, in order; `specs/Comes.antt` and `specs/Leaves.antt` say
//! once for all courses to which ends a run may come and what it leaves, `specs/Causes.antt` when each fault comes,
//! `specs/Safety.antt` what crashes may leave of a store meanwhile, `specs/Locality.antt` what an append reads,
//! `specs/Checking.antt` what the answer of a check says of the bytes of a store, and `specs/Ahead.antt` which files may be
//! read before their turn.
//! `Runs` of `specs/Runs.antt` and `IsSafe` are what `run` of `updater` promises.
//!
//! The laws are functions without a body. For every command there are `ends_are_due` and `faults_come_in_turn`; for stores
//! of the old format `old_stores_are_left` and `migrations_end_well`, and for those of followers `follower_stores_are_left`;
//! and of runs that end well `imports_end_well`, `appends_end_well`, `feeds_end_well`, `follows_end_well`,
//! `clearings_end_well` and `checks_end_well`. A `Fault` says why a run ended early, with its status and its one line of text.
#![tactic(auto)]

mod fault;
mod files;
mod laws;
mod ranges;
mod shared;

pub use fault::{Fault, Outcome, fault_line};
pub use files::{Files, MAX_WHOLE};
pub use laws::{
    appends_end_well, checks_end_well, clearings_end_well, ends_are_due, faults_come_in_turn,
    feeds_end_well, follower_stores_are_left, follows_end_well, imports_end_well,
    migrations_end_well, old_stores_are_left,
};
pub use ranges::{MAX_AHEAD, MAX_BUCKETS, MAX_READERS, MAX_WORKERS};
pub use shared::shared_numbers;
