//! A reader that looks until it sees the last version.
use crate::held::asked;
use crate::plan::Plan;
use crate::texts::push_found;
use map_query::Query;
use outside::OpenGate;
use std::alloc::Global;
use std::thread;
use table_versions::{Answer, Counted, LookRefused, MapReader, Reads, Round};

/// A reader, the version that it saw last, and whether all that it found so far is good: each answer is that of its
/// version, and no version is older than one before it.
#[derive(Drop)]
pub struct Watch {
    reader: MapReader,
    version: u64,
    good: bool,
}

impl Watch {
    /// A reader that has seen nothing.
    pub fn new(reader: MapReader) -> Self {
        Self {
            reader,
            version: 0,
            good: true,
        }
    }

    /// Asks all queries again and again, until the last version is seen. Each version that it saw at the end of a round
    /// it marks as seen.
    pub fn look_on(&mut self, alloc: Global, plan: &Plan) {
        for _ in 0..plan.turns {
            self.good = self.is_good_round(alloc, plan);
            plan.mark(self.version);
            if !self.good || self.version >= plan.last() {
                return;
            }
            thread::yield_now();
        }
    }

    /// Asks all queries. Whether what it finds is good.
    fn is_good_round(&mut self, alloc: Global, plan: &Plan) -> bool {
        match asked(alloc, &mut self.reader, &plan.queries, 1, &OpenGate) {
            Ok(round) => !round.shut && self.are_good(alloc, plan, &round),
            Err(_) => false,
        }
    }

    /// Whether the answers of a round are those of their versions, which are no older than one before them.
    fn are_good(&mut self, alloc: Global, plan: &Plan, round: &Round) -> bool {
        for (query, answer) in round.answers.as_slice().iter().enumerate() {
            if answer.version < self.version || !is_true(alloc, plan, query, answer) {
                return false;
            }
            self.version = answer.version;
        }
        true
    }

    /// Whether all that it found is good, up to the last version, which it still sees.
    pub fn is_good(&mut self, alloc: Global, plan: &Plan) -> bool {
        let last = Counted {
            version: plan.last(),
            rows: 2,
        };
        let counted = self.reader.count(0);
        let good = self.is_good_round(alloc, plan);
        good && self.good && self.version == last.version && counted == Some(last)
    }

    /// Whether it is let in no more.
    pub fn is_shut(&mut self, alloc: Global, plan: &Plan) -> bool {
        match plan.queries.as_slice().first() {
            Some(query) => self.is_refused(alloc, query) && self.reader.count(0).is_none(),
            None => false,
        }
    }

    /// Whether it is not let in for a query.
    fn is_refused(&mut self, alloc: Global, query: &Query) -> bool {
        match self.reader.look(alloc, query) {
            Err(LookRefused::Shut) => true,
            _ => false,
        }
    }
}

/// Whether an answer is what its version answers to a query, by its number.
fn is_true(alloc: Global, plan: &Plan, query: usize, answer: &Answer) -> bool {
    let mut found = String::new(alloc);
    match push_found(alloc, &answer.found, &mut found) {
        Ok(()) => plan.is_true(answer.version, query, found.as_str()),
        Err(_) => false,
    }
}
