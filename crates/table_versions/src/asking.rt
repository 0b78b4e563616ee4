//! How a reader is asked a list of queries.
ghost use Rattle.std.specs.Prelude.{◌≡◌, ◌<◌, ◌≤◌, ◌↔◌, false, true, length, IfOk, IsTrue, IsFalse};
ghost use Rattle.outside.specs.Causes.{Rose};
ghost use Rattle.table_versions.specs.Fronts.{Begins};
ghost use Rattle.table_versions.specs.Answers.{AreAnswers};

use crate::answers::{Answer, LookRefused};
use crate::looking::Reads;
use map_query::{Queries, Query};
use osm_base::{Items, OutOfMemory};
use outside::{Gate, GatePlace};
use std::alloc::Global;

/// Answers, in the order in which they were given.
pub type Answers = Items<Answer>;

/// What a reader answers to a list of queries.
#[derive(Drop)]
pub struct Round {
    pub answers: Answers,
    /// It was not let in at the query behind these answers.
    pub shut: bool,
}

/// Asks a reader one query after the other, until it is not let in. Before each it passes the gate with this number.
pub fn ask<E: Reads, G: Gate>(
    alloc: Global,
    reader: &mut E,
    queries: &Queries,
    number: u64,
    gate: &G,
) -> Result<Round, OutOfMemory>
    ensures same { E.state reader.new ≡ record (E.state reader.old) { seen = (E.state reader.new).seen; refusals = (E.state reader.new).refusals } }
    ensures seen { Begins (E.state reader.old).seen (E.state reader.new).seen }
    ensures answers { IfOk result (λ round. AreAnswers (E.state reader.old).style (E.state reader.old).told (E.state reader.old).seen (E.state reader.new).seen queries.now round.answers) }
    ensures all { IfOk result (λ round. IsFalse round.shut ↔ (length round.answers ≡ length queries.now)) }
    ensures handle { IfOk result (λ round. 0 < length round.answers → (E.state reader.old).has_handle ≡ true) }
    ensures shut { IfOk result (λ round. IsTrue round.shut → Rose (E.state reader.old).refusals (E.state reader.new).refusals) }
    ensures later { (E.state reader.old).refusals ≤ (E.state reader.new).refusals }
{
    ask_all(alloc, reader, queries.as_slice(), number, gate)
}

/// Asks it these.
fn ask_all<E: Reads, G: Gate>(
    alloc: Global,
    reader: &mut E,
    queries: &[Query],
    number: u64,
    gate: &G,
) -> Result<Round, OutOfMemory>
    ensures same { E.state reader.new ≡ record (E.state reader.old) { seen = (E.state reader.new).seen; refusals = (E.state reader.new).refusals } }
    ensures seen { Begins (E.state reader.old).seen (E.state reader.new).seen }
    ensures answers { IfOk result (λ round. AreAnswers (E.state reader.old).style (E.state reader.old).told (E.state reader.old).seen (E.state reader.new).seen queries.now round.answers) }
    ensures all { IfOk result (λ round. IsFalse round.shut ↔ (length round.answers ≡ length queries.now)) }
    ensures handle { IfOk result (λ round. 0 < length round.answers → (E.state reader.old).has_handle ≡ true) }
    ensures shut { IfOk result (λ round. IsTrue round.shut → Rose (E.state reader.old).refusals (E.state reader.new).refusals) }
    ensures later { (E.state reader.old).refusals ≤ (E.state reader.new).refusals }
{
    let mut answers = Items::new(alloc);
    for query in queries {
        gate.pass(GatePlace::BeforeLook, number);
        match reader.look(alloc, query) {
            Ok(answer) => answers.push(answer)?,
            Err(LookRefused::Shut) => {
                return Ok(Round {
                    answers,
                    shut: true,
                });
            }
            Err(LookRefused::OutOfMemory) => return Err(OutOfMemory),
        }
    }
    Ok(Round {
        answers,
        shut: false,
    })
}
