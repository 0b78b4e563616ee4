//! A row of a table.

use example_table::{named_row, sides_of};

/// The kind of an example, its name, what is given and what is wanted.
#[derive(Clone, Copy)]
pub struct Row<'a> {
    pub kind: &'a str,
    pub name: &'a str,
    pub given: &'a str,
    pub wanted: &'a str,
}

/// The row of a line of a table. `None`: it is none of this table.
pub fn line_row<'a>(table: &str, line: &'a str) -> Option<Row<'a>> {
    let (first, rest) = named_row(line)?;
    if table == "histories.txt" {
        return Some(Row {
            kind: "histories",
            name: first,
            given: rest,
            wanted: "",
        });
    }
    let (given, wanted) = sides_of(rest)?;
    let (name, given) = named_row(given)?;
    Some(Row {
        kind: first,
        name,
        given,
        wanted,
    })
}
