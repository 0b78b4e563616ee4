//! What is asked of a reader, and what it answers.
ghost use Rattle.std.specs.Prelude.{◌≡◌, ◌≤◌, true, IfErr, IfOk, IfSome, IfNone, OnOk, OnSome};
ghost use Rattle.outside.specs.Causes.{Rose};
ghost use Rattle.table_versions.specs.Fronts.{Begins};
ghost use Rattle.table_versions.specs.Answers.{IsAnswer, IsCount, IsRefused};
ghost use Rattle.table_versions.specs.Views.{ReaderOf};

use crate::answers::{Answer, Counted, LookRefused};
use map_query::Query;
use std::alloc::Global;

/// What looks at versions of tables.
pub trait Reads: Send {
    // What it is as a reader: its style, what it saw and was told of, whether it has a handle, and its refusals.
    ghost state: { Self → ReaderOf };

    /// The answer to a query over the first tables with some deltas, which begin with all that it saw or was told of.
    fn look(&mut self, alloc: Global, query: &Query) -> Result<Answer, LookRefused>
        ensures same { state self.new ≡ record (state self.old) { seen = (state self.new).seen; refusals = (state self.new).refusals } }
        ensures seen { Begins (state self.old).seen (state self.new).seen }
        ensures told { OnOk result (Begins (state self.old).told (state self.new).seen) }
        ensures handle { OnOk result ((state self.old).has_handle ≡ true) }
        ensures answer { IfOk result (IsAnswer (state self.old).style (state self.new).seen query.now) }
        ensures shut { IfErr result (IsRefused (state self.old).refusals (state self.new).refusals ((state self.new).seen ≡ (state self.old).seen)) }
        ensures later { (state self.old).refusals ≤ (state self.new).refusals };

    /// The same for the number of rows of a table. `None`: it was not let in.
    fn count(&mut self, table: u32) -> Option<Counted>
        ensures same { state self.new ≡ record (state self.old) { seen = (state self.new).seen; refusals = (state self.new).refusals } }
        ensures seen { Begins (state self.old).seen (state self.new).seen }
        ensures told { OnSome result (Begins (state self.old).told (state self.new).seen) }
        ensures handle { OnSome result ((state self.old).has_handle ≡ true) }
        ensures counted { IfSome result (IsCount (state self.new).seen table) }
        ensures shut { IfNone result (Rose (state self.old).refusals (state self.new).refusals × ((state self.new).seen ≡ (state self.old).seen)) }
        ensures later { (state self.old).refusals ≤ (state self.new).refusals };
}
