//! What readers answer, as text.
use crate::refusal::Refusal;
use map_query::Found;
use osm_base::NumberedRow;
use row_text::push_row;
use std::alloc::Global;
use table_versions::{Answer, Counted};

/// Adds an answer to those before it: its version, and the count or the rows.
pub fn push_answer(alloc: Global, answer: &Answer, out: &mut String) -> Result<(), Refusal> {
    let version = answer.version;
    push_comma(out)?;
    write!(out, "{version} ")?;
    push_found(alloc, &answer.found, out)
}

/// Adds a count of rows, with its version, to the answers before it.
pub fn push_counted(counted: Counted, out: &mut String) -> Result<(), Refusal> {
    let Counted { version, rows } = counted;
    push_comma(out)?;
    write!(out, "{version} count {rows}")?;
    Ok(())
}

/// Adds to the answers that the reader is not let in.
pub fn push_shut(out: &mut String) -> Result<(), Refusal> {
    push_comma(out)?;
    out.push_str("shut")?;
    Ok(())
}

/// Adds a comma, where something stands before it.
fn push_comma(out: &mut String) -> Result<(), Refusal> {
    if !out.is_empty() {
        out.push_str(", ")?;
    }
    Ok(())
}

/// Adds what a query finds.
pub fn push_found(alloc: Global, found: &Found, out: &mut String) -> Result<(), Refusal> {
    match found {
        Found::Count(count) => {
            write!(out, "count {count}")?;
            Ok(())
        }
        Found::Rows(rows) => push_rows(alloc, rows.as_slice(), out),
    }
}

/// Adds rows, with a blank before each and a bar behind it.
fn push_rows(alloc: Global, rows: &[NumberedRow], out: &mut String) -> Result<(), Refusal> {
    out.push_str("rows")?;
    let mut line = String::new(alloc);
    for row in rows {
        line.clear();
        push_row(&mut line, row.number, &row.row)?;
        out.push(' ')?;
        push_readable(line.as_str(), out)?;
    }
    Ok(())
}

/// Adds a text with blanks for tabs, and bars for newlines.
fn push_readable(text: &str, out: &mut String) -> Result<(), Refusal> {
    for letter in text.chars() {
        out.push(match letter {
            '\t' => ' ',
            '\n' => '|',
            _ => letter,
        })?;
    }
    Ok(())
}
