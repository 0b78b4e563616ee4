//! Examples of a reader of one version, of which calls fail.
use crate::notation::{queries_of, style, tables_of};
use crate::refusal::Refusal;
use crate::texts::{push_answer, push_shut};
use doubles::Fails;
use example_table::{named_row, number_in};
use map_query::Queries;
use osm_base::Ids;
use outside::{Gate, GatePlace, OpenGate};
use std::alloc::Global;
use std::sync::atomic::{AtomicU64, Ordering};
use style_read::Style;
use table_versions::{HeldReader, Reads, Round, ask};

/// What a row `VERSION CALL QUERIES | ROWS` gives.
#[derive(Clone, Copy)]
struct Given<'t> {
    version: u64,
    /// The number of the call that fails, or 0.
    call: u64,
    queries: &'t str,
    rows: &'t str,
}

/// A row `VERSION CALL QUERIES | ROWS`: what a reader of these rows answers to queries, where the call of this number
/// fails, or none for 0.
pub fn held(alloc: Global, given: &str, out: &mut String) -> Result<(), Refusal> {
    let Some(given) = given_by(given) else {
        return Err(Refusal::NoRow);
    };
    let round = round_of(alloc, given, 1, &OpenGate)?;
    push_round(alloc, &round, out)
}

/// The same row: how often the reader passed the gate before a look, with the version as its number, and how often
/// otherwise.
pub fn passed(alloc: Global, given: &str, out: &mut String) -> Result<(), Refusal> {
    let Some(given) = given_by(given) else {
        return Err(Refusal::NoRow);
    };
    let gate = Counts {
        number: given.version,
        looks: AtomicU64::new(0),
        others: AtomicU64::new(0),
    };
    round_of(alloc, given, given.version, &gate)?;
    push_passes(&gate, out)
}

/// A gate that counts who passes it before a look with this number, and who else.
#[derive(Drop)]
struct Counts {
    number: u64,
    looks: AtomicU64,
    others: AtomicU64,
}

impl Gate for Counts {
    fn pass(&self, place: GatePlace, number: u64) {
        if place == GatePlace::BeforeLook && number == self.number {
            self.looks.fetch_add(1, Ordering::SeqCst);
        } else {
            self.others.fetch_add(1, Ordering::SeqCst);
        }
    }
}

/// Adds what a gate has counted.
fn push_passes(gate: &Counts, out: &mut String) -> Result<(), Refusal> {
    let looks = gate.looks.load(Ordering::SeqCst);
    let others = gate.others.load(Ordering::SeqCst);
    write!(out, "{looks} looks, {others} others")?;
    Ok(())
}

/// What a row gives.
fn given_by(text: &str) -> Option<Given<'_>> {
    let (version, rest) = named_row(text)?;
    let (call, rest) = named_row(rest)?;
    let (queries, rows) = rest.split_once('|')?;
    Some(Given {
        version: number_in(version)?,
        call: number_in(call)?,
        queries,
        rows,
    })
}

/// What such a reader answers, when it is asked with this number.
fn round_of<G: Gate>(alloc: Global, given: Given, number: u64, gate: &G) -> Result<Round, Refusal> {
    let style = style(alloc)?;
    let queries = queries_of(alloc, &style, given.queries)?;
    let mut reader = reader_of(alloc, style, given)?;
    asked(alloc, &mut reader, &queries, number, gate)
}

/// Such a reader.
fn reader_of(alloc: Global, style: Style, given: Given) -> Result<HeldReader, Refusal> {
    let tables = tables_of(alloc, given.rows)?;
    let mut calls = Ids::new(alloc);
    calls.push(given.call)?;
    let fails = Fails::new(calls, 0);
    Ok(HeldReader::new(style, tables, given.version, fails))
}

/// A round of questions, its contract left behind.
pub fn asked<E: Reads, G: Gate>(
    alloc: Global,
    reader: &mut E,
    queries: &Queries,
    number: u64,
    gate: &G,
) -> Result<Round, Refusal> {
    Ok(ask(alloc, reader, queries, number, gate)?)
}

/// Adds the answers of a round, and a word where it is shut.
fn push_round(alloc: Global, round: &Round, out: &mut String) -> Result<(), Refusal> {
    for answer in round.answers.as_slice() {
        push_answer(alloc, answer, out)?;
    }
    if round.shut {
        push_shut(out)?;
    }
    Ok(())
}
