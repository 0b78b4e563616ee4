//! What a publisher tells a reader.
use crate::front::Front;
use std::marker::Model;

/// All that was published when it was told. Contracts see the history, and its deltas.
#[derive(Drop)]
pub struct Told {
    pub(crate) front: Front,
}

impl Model for Told {
    ghost use Rattle.table_versions.specs.Fronts.{FrontOf, front_code};

    ghost Value = { FrontOf };

    ghost coded = { front_code };

    ghost view = { λ told. told.front };

    ghost inverse = { λ front. record { front = front } };
}
