//! An edge of a ring, by natural numbers.
ghost use Rattle.ring_nest.specs.Edge.{EdgeOf, IsEdge};

use std::marker::Model;

/// An edge of a ring from its south end to its north end: how far north of the pole and east of the antimeridian these are.
#[derive(Clone, Copy)]
pub(crate) struct Edge {
    pub(crate) low: u32,
    pub(crate) high: u32,
    pub(crate) at_low: u32,
    pub(crate) at_high: u32,
}

impl Model for Edge {
    ghost Value = { EdgeOf };

    ghost view = { λ edge. record { low = edge.low; high = edge.high; at_low = edge.at_low; at_high = edge.at_high } };

    ghost inverse = { λ edge. record { low = edge.low; high = edge.high; at_low = edge.at_low; at_high = edge.at_high } };

    ghost invariant = { λ edge. IsEdge (record { low = edge.low; high = edge.high; at_low = edge.at_low; at_high = edge.at_high }) };
}
