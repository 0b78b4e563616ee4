//! What one worker built.
ghost use Rattle.std.specs.Prelude.{◌≡◌, ◌∷◌, ◌++◌, [], IfOk, OnOk};

use osm_base::{Ids, Items, OutOfMemory, RowLists, TableRows};
use std::alloc::Global;

/// The tickets that a worker drew, in order, and at the same places the rows of each.
#[derive(Drop)]
pub struct Part {
    pub tickets: Ids,
    pub rows: RowLists,
}

impl Part {
    /// Nothing yet.
    pub fn new(alloc: Global) -> Self
        ensures empty { result ≡ record { tickets = []; rows = [] } }
    {
        Self {
            tickets: Items::new(alloc),
            rows: Items::new(alloc),
        }
    }

    /// Adds the rows of a ticket.
    pub fn add(&mut self, ticket: u32, rows: TableRows) -> Result<(), OutOfMemory>
        ensures ok { OnOk result (self.new ≡ record { tickets = self.old.tickets ++ ticket ∷ []; rows = self.old.rows ++ rows ∷ [] }) }
    {
        self.tickets.push(u64::from(ticket))?;
        self.rows.push(rows)
    }

    /// This part, and then the other.
    pub fn then(self, other: Part) -> Result<Part, OutOfMemory>
        ensures ok { IfOk result (λ both. both ≡ record { tickets = self.tickets ++ other.tickets; rows = self.rows ++ other.rows }) }
    {
        Ok(Part {
            tickets: appended(self.tickets, other.tickets)?,
            rows: appended(self.rows, other.rows)?,
        })
    }
}

fn appended<T: Drop>(front: Items<T>, back: Items<T>) -> Result<Items<T>, OutOfMemory>
    ensures both { IfOk result (λ both. both ≡ front ++ back) }
{
    let mut front = front.into_vec();
    let mut back = back.into_vec();
    front.append(&mut back)?;
    Ok(Items::from_vec(front))
}
