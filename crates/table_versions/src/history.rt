//! What stands in a history, its rule, and the step that adds to it.
use logbook::{Gain, Opening, Plain, Play, Rule};
use osm_base::{Delta, Tables};

/// An entry of a history. No value of it is made.
pub enum Entry {
    /// The tables that it begins with, and how many changes they have seen.
    Opens { tables: Tables, version: u64 },
    Adds { delta: Delta },
}

/// What a history begins with.
#[derive(Clone, Copy)]
pub struct Beginning<'t> {
    pub tables: &'t Tables,
    pub version: u64,
}

/// The rule: the word is the number of deltas.
pub struct Law;

impl Rule<Entry, u64> for Law {
    ghost use Rattle.std.specs.Prelude.{[]};
    ghost use base.Fml.{ftrue};
    ghost use Rattle.table_versions.specs.History.{IsKept};

    ghost holds = { λ cells log. IsKept cells log };

    ghost first = { [] };

    ghost hinted = { λ n log. Unit {0} };

    ghost shows = { λ log. [] };

    ghost keeps = { λ names log. ftrue };

    ghost moves = { λ ask before after answer. Unit {0} };
}

/// The first entry of a history.
pub struct Begin;

impl<'t> Opening<Beginning<'t>, Entry> for Begin {
    ghost use Rattle.std.specs.Prelude.{[], ◌∷◌};
    ghost use Rattle.table_versions.specs.declared.history.Entry.TheVariants.{Opens};

    ghost log = { λ words beginning. Opens beginning.tables.now beginning.version ∷ [] };
}

/// Callers trade nothing.
pub struct Nothing;

impl Gain<Entry, u64> for Nothing {
    ghost use base.Fml.{ftrue};

    ghost after = { λ names about answer. ftrue };
}

/// A step that adds a delta.
pub struct Add;

impl Play<Entry, u64> for Add {
    ghost use Rattle.table_versions.specs.History.{AddsOne};

    ghost then = { AddsOne };
}

/// What the step asks for: the delta.
impl Plain<Delta, Entry, u64> for Add {
    ghost use Rattle.std.specs.Prelude.{None};
    ghost use Rattle.table_versions.specs.declared.history.Entry.TheVariants.{Adds};

    ghost ask = { λ delta. Adds delta };

    ghost state = { λ delta. None };
}
