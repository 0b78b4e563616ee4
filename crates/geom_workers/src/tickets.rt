//! Rows put in the order of their tickets.
ghost use Rattle.std.specs.Prelude.{◌≡◌, ℕ, List, length, map, IfOk};
ghost use Rattle.std.specs.List.{range_with_len};
ghost use Rattle.osm_base.specs.declared.values.row.TableRow.{TableRow};
ghost use Rattle.pending_book.specs.Once.{IsOnce};

use osm_base::{Items, OutOfMemory, RowLists, TableRows};
use std::alloc::Global;

/// The rows by ticket, where each number below the count is a ticket once.
pub fn by_ticket(
    alloc: Global,
    count: usize,
    tickets: &[u64],
    rows: RowLists,
) -> Result<RowLists, OutOfMemory>
    requires once { IsOnce tickets.now count }
    requires pairs { length rows ≡ length tickets.now }
    ensures rows { (of : ℕ → List TableRow) → rows ≡ map of tickets.now → IfOk result (λ all. all ≡ map of (range_with_len 0 count)) }
{
    let mut all = empty_rows(alloc, count)?;
    let mut rows = rows.into_vec();
    'placing: while let Some(built) = rows.pop() {
        let place = tickets[rows.len()] as usize;
        all[place] = built;
    }
    Ok(Items::from_vec(all))
}

fn empty_rows(alloc: Global, count: usize) -> Result<Vec<TableRows>, OutOfMemory>
    ensures count { IfOk result (λ all. length all.items ≡ count) }
{
    let mut all = Vec::with_capacity(alloc, count)?;
    for _ in 0..count {
        all.push(Items::new(alloc))?;
    }
    Ok(all)
}
