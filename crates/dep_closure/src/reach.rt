//! Whether a style reaches nodes.
ghost use Rattle.std.specs.Prelude.{◌≡◌, ◌&&◌};
ghost use Rattle.std.specs.List.{list_any};
ghost use Rattle.row_rules.specs.Condition.{asks_selection, is_from_selection, names_selection, is_of_nodes, reaches_nodes};

use style_read::{Column, Condition, Origin, Source, Style, TableDef};

/// Whether a relation that changes may change the row of a node that is a member of it.
pub fn reaches_nodes(style: &Style) -> bool
    ensures reaches { result ≡ reaches_nodes style.now }
{
    some_reaches(style.tables.as_slice())
}

/// Whether one of these tables depends on the relations of its nodes.
fn some_reaches(tables: &[TableDef]) -> bool
    ensures some { result ≡ list_any (λ table. is_of_nodes table.source && names_selection table) tables.now }
{
    tables.iter().any(table_reaches)
}

/// Whether a table is of nodes and depends on their relations.
fn table_reaches(table: &TableDef) -> bool
    ensures reaches { result ≡ (is_of_nodes table.now.source && names_selection table.now) }
{
    is_of_nodes(table.source) && names_selection(table)
}

/// Whether the rows of a table are those of nodes.
fn is_of_nodes(source: Source) -> bool
    ensures nodes { result ≡ is_of_nodes source }
{
    matches!(source, Source::Node)
}

/// Whether the rows of a table depend on the relations of their objects.
fn names_selection(table: &TableDef) -> bool
    ensures names { result ≡ names_selection table.now }
{
    some_asks(table.all_of.as_slice())
        || (some_asks(table.one_of.as_slice()) || some_takes(table.columns.as_slice()))
}

/// Whether one of these conditions asks for a selection.
fn some_asks(conditions: &[Condition]) -> bool
    ensures asks { result ≡ list_any asks_selection conditions.now }
{
    conditions.iter().any(asks_selection)
}

/// Whether a condition asks for a selection.
fn asks_selection(condition: &Condition) -> bool
    ensures asks { result ≡ asks_selection condition.now }
{
    matches!(condition, Condition::Selected(_))
}

/// Whether one of these columns hands on what a selection gives.
fn some_takes(columns: &[Column]) -> bool
    ensures takes { result ≡ list_any is_from_selection columns.now }
{
    columns.iter().any(is_from_selection)
}

/// Whether a column hands on what a selection gives.
fn is_from_selection(column: &Column) -> bool
    ensures takes { result ≡ is_from_selection column.now }
{
    matches!(column.origin, Origin::Selected(_))
}
