//! How many workers build.
ghost use Rattle.std.specs.Prelude.{◌≡◌, ◌≤◌, ◌↔◌, ◌/◌, min, max, IsSome, IfSome};
ghost use Rattle.geom_workers.specs.Workers.{AreWorkers};

use std::marker::Model;

/// The most workers that may build.
const MAX_WORKERS: u32 = 64;

/// The fewest keys that are worth a thread's start.
const KEYS_EACH: usize = 1024;

/// A number of workers, from 1 to 64.
#[derive(Clone, Copy, Debug, PartialEq, Eq)]
pub struct Workers {
    count: u32,
}

impl Model for Workers {
    ghost use Rattle.std.specs.Prelude.{ℕ};
    ghost use Rattle.geom_workers.specs.Workers.{AreWorkers};

    ghost Value = { ℕ };

    ghost view = { λ workers. workers.count };

    ghost inverse = { λ count. record { count = count } };

    ghost invariant = { λ workers. AreWorkers workers.count };
}

impl Workers {
    /// So many. `None`: none, or more than may build.
    pub fn new(count: u32) -> Option<Self>
        ensures some { IsSome result ↔ AreWorkers count }
        ensures count { IfSome result (λ workers. workers ≡ count) }
    {
        if 1 <= count && count <= MAX_WORKERS {
            Some(Self { count })
        } else {
            None
        }
    }

    /// How many they are.
    pub fn count(self) -> u32
        ensures count { result ≡ self }
        ensures within { AreWorkers result }
    {
        self.count
    }

    /// As many of them as so many keys are worth: one where the keys are few.
    pub fn for_keys(self, keys: usize) -> Self
        ensures count { result ≡ min self (max 1 (keys / KEYS_EACH)) }
    {
        let worth = (keys / KEYS_EACH).max(1).min(self.count as usize);
        Self {
            count: worth as u32,
        }
    }
}
