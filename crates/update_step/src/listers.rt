//! Who has an object as a member.
ghost use Rattle.std.specs.Prelude.{◌≡◌};
ghost use Rattle.osm_base.specs.values.Ids.{AreRisingIds};

use osm_base::Ids;
use std::marker::Model;

/// Rising ids of relations.
#[derive(Drop)]
pub(crate) struct Listers {
    ids: Ids,
}

impl Model for Listers {
    ghost use Rattle.std.specs.Prelude.{ℕ, List};
    ghost use Rattle.osm_base.specs.values.Ids.{AreRisingIds};

    ghost Value = { List ℕ };

    ghost view = { λ listers. listers.ids };

    ghost invariant = { λ listers. AreRisingIds listers.ids };
}

impl Listers {
    /// These ids.
    pub(crate) fn new(ids: Ids) -> Self
        requires rising { AreRisingIds ids }
        ensures ids { result ≡ ids }
    {
        Self { ids }
    }

    /// The ids in order.
    pub(crate) fn as_slice(&self) -> &[u64]
        ensures ids { result.now ≡ self.now }
        ensures rising { AreRisingIds self.now }
    {
        self.ids.as_slice()
    }
}
