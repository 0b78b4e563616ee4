//! How a map reader looks.
use crate::answers::{Answer, Counted, LookRefused};
use crate::looking::Reads;
use crate::reader::{MapReader, enter};
use map_query::{Query, answer_by_boxes};
use osm_base::OutOfMemory;
use std::alloc::Global;

impl Reads for MapReader {
    ghost state = { λ reader. reader };

    #[tactic(auto, using(crate::proofs::Answered::answered, crate::proofs::Answered::shown_tables, crate::proofs::Answered::shown_number, crate::proofs::Answered::begins_self))]
    fn look(&mut self, alloc: Global, query: &Query) -> Result<Answer, LookRefused> {
        let Some((inside, front)) = enter(&mut self.handle, &self.seen, &self.told) else {
            self.refusals = self.refusals.saturating_add(1);
            return Err(LookRefused::Shut);
        };
        let shown = inside.get();
        let version = shown.version;
        let found = answer_by_boxes(alloc, &self.style, &shown.tables, &shown.boxes, query);
        self.handle = Some(inside.leave());
        match found {
            Ok(found) => {
                self.seen = front;
                Ok(Answer { version, found })
            }
            Err(OutOfMemory) => Err(LookRefused::OutOfMemory),
        }
    }

    #[tactic(auto, using(crate::proofs::Answered::counted, crate::proofs::Answered::shown_tables, crate::proofs::Answered::shown_number, crate::proofs::Answered::begins_self))]
    fn count(&mut self, table: u32) -> Option<Counted> {
        let Some((inside, front)) = enter(&mut self.handle, &self.seen, &self.told) else {
            self.refusals = self.refusals.saturating_add(1);
            return None;
        };
        let shown = inside.get();
        let version = shown.version;
        let rows = shown.tables.count(table);
        self.handle = Some(inside.leave());
        self.seen = front;
        Some(Counted { version, rows })
    }
}
