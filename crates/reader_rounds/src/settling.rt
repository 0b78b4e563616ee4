//! What is given of the answers of a reader, once the last version is known.
ghost use Rattle.std.specs.Prelude.{◌≡◌, ◌++◌, ◌∷◌, [], IfOk, length, map};
ghost use Rattle.std.specs.List.{AllByRecursion};
ghost use Rattle.reader_rounds.specs.Settling.{HasLength, answered, last_or_given, all_last_or_given, shut_rounds};

use map_query::{Query, answer};
use osm_base::{Items, OutOfMemory, Tables};
use std::alloc::Global;
use style_read::Style;
use table_versions::{Answer, Answers};

/// What a reader answers in rounds, in their order.
pub type Rounds = Items<Answers>;

/// The answers of a reader that was let in: those of a later version than the last one are taken over the tables of that.
pub(crate) fn settle_rounds(
    alloc: Global,
    style: &Style,
    tables: &Tables,
    version: u64,
    queries: &[Query],
    rounds: Rounds,
) -> Result<Rounds, OutOfMemory>
    requires whole { AllByRecursion (HasLength (length queries.now)) rounds }
    ensures last_or_given { IfOk result (λ given. given ≡ map (all_last_or_given style.now tables.now version queries.now) rounds) }
{
    let mut given = Items::new(alloc);
    for round in rounds.into_vec() {
        given.push(settle_round(alloc, style, tables, version, queries, round)?)?;
    }
    Ok(given)
}

/// The answers of one round.
fn settle_round(
    alloc: Global,
    style: &Style,
    tables: &Tables,
    version: u64,
    queries: &[Query],
    round: Answers,
) -> Result<Answers, OutOfMemory>
    requires whole { HasLength (length queries.now) round }
    ensures last_or_given { IfOk result (λ given. given ≡ all_last_or_given style.now tables.now version queries.now round) }
{
    let mut given = Items::new(alloc);
    let mut index = 0;
    for own in round.into_vec() {
        given.push(last_or_given(alloc, style, tables, version, &queries[index], own)?)?;
        index += 1;
    }
    Ok(given)
}

/// One answer.
fn last_or_given(
    alloc: Global,
    style: &Style,
    tables: &Tables,
    version: u64,
    query: &Query,
    given: Answer,
) -> Result<Answer, OutOfMemory>
    ensures last_or_given { IfOk result (λ own. own ≡ last_or_given style.now tables.now version query.now given) }
{
    if version < given.version {
        return answer_last(alloc, style, tables, version, query);
    }
    Ok(given)
}

/// The answers of a reader that was not let in: in each of so many rounds and one more they are of the last version.
pub(crate) fn all_last(
    alloc: Global,
    style: &Style,
    tables: &Tables,
    version: u64,
    queries: &[Query],
    rounds: u32,
) -> Result<Rounds, OutOfMemory>
    ensures last { IfOk result (λ given. given ≡ shut_rounds rounds (map (answered style.now tables.now version) queries.now)) }
{
    let mut given = Items::new(alloc);
    for _ in 0..rounds {
        given.push(round_last(alloc, style, tables, version, queries)?)?;
    }
    given.push(round_last(alloc, style, tables, version, queries)?)?;
    Ok(given)
}

/// A round of answers of the last version.
fn round_last(
    alloc: Global,
    style: &Style,
    tables: &Tables,
    version: u64,
    queries: &[Query],
) -> Result<Answers, OutOfMemory>
    ensures last { IfOk result (λ given. given ≡ map (answered style.now tables.now version) queries.now) }
{
    let mut given = Items::new(alloc);
    for query in queries {
        given.push(answer_last(alloc, style, tables, version, query)?)?;
    }
    Ok(given)
}

/// The answer of the last version.
fn answer_last(
    alloc: Global,
    style: &Style,
    tables: &Tables,
    version: u64,
    query: &Query,
) -> Result<Answer, OutOfMemory>
    ensures last { IfOk result (λ given. given ≡ answered style.now tables.now version query.now) }
{
    let found = answer(alloc, style, tables, query)?;
    Ok(Answer { version, found })
}
