//! What is told to be listed, in order.
ghost use Rattle.std.specs.List.Sorted.{IsNonDecreasingBy};
ghost use Rattle.back_index.specs.Filling.{id_of};

use back_index::Mention;

/// Mentions in the order of what is mentioned.
#[derive(Clone, Copy)]
pub(crate) struct Mentions<'m> {
    pub(crate) all: &'m [Mention],
    ghost order: { IsNonDecreasingBy id_of all.now },
}
