//! Answers to queries as text.
ghost use Rattle.std.specs.Prelude.{◌≡◌, ◌++◌, IfOk, OnOk};
ghost use Rattle.std.specs.String.{string_bytes};
ghost use Rattle.run_promise.specs.Answers.{answers_text, counted, found_text, rows_text};

use map_query::{Found, Query, answer_in_order, boxed_tables};
use osm_base::{NumberedRow, OutOfMemory, Tables};
use row_text::push_row;
use std::alloc::Global;
use style_read::Style;

/// The answers of this version of tables, one behind the other.
pub fn answers_text(
    alloc: Global,
    style: &Style,
    tables: &Tables,
    version: u64,
    queries: &[Query],
) -> Result<String, OutOfMemory>
    ensures text { IfOk result (λ text. string_bytes text ≡ answers_text style.now tables.now version queries.now) }
{
    let ordered = boxed_tables(alloc, style, tables)?;
    let mut out = String::new(alloc);
    for query in queries {
        let found = answer_in_order(alloc, style, tables, &ordered, query)?;
        push_found(&mut out, version, &found)?;
    }
    Ok(out)
}

/// Appends an answer of this version.
pub fn push_found(out: &mut String, version: u64, found: &Found) -> Result<(), OutOfMemory>
    ensures text { OnOk result (string_bytes out.new ≡ string_bytes out.old ++ found_text version found.now) }
{
    match found {
        Found::Count(count) => push_counted(out, version, " count ", *count),
        Found::Rows(rows) => {
            push_counted(out, version, " rows ", rows.as_slice().len() as u64)?;
            push_rows(out, rows.as_slice())
        }
    }
}

/// Appends the line before an answer.
fn push_counted(out: &mut String, version: u64, kind: &str, count: u64) -> Result<(), OutOfMemory>
    ensures text { OnOk result (string_bytes out.new ≡ string_bytes out.old ++ counted version kind.now count) }
{
    let mut first = itoa::Buffer::new();
    let mut second = itoa::Buffer::new();
    out.push_str("version ")?;
    out.push_str(first.format(version))?;
    out.push_str(kind)?;
    out.push_str(second.format(count))?;
    out.push_str("\n")?;
    Ok(())
}

/// Appends the lines of rows.
fn push_rows(out: &mut String, rows: &[NumberedRow]) -> Result<(), OutOfMemory>
    ensures text { OnOk result (string_bytes out.new ≡ string_bytes out.old ++ rows_text rows.now) }
{
    for own in rows {
        push_row(out, own.number, &own.row)?;
    }
    Ok(())
}
