//! Styles of many parts, made from their numbers.
use crate::styles::put_refusal;
use example_table::{named_row, number_in};
use std::alloc::{AllocError, Global};
use style_read::{StyleFault, read_style};

/// Adds what reading the style of a row `SELECTIONS TABLES COLUMNS` gives: `read`, or its cause and part. The
/// columns are those of the last table.
pub fn read(alloc: Global, answer: &mut String, given: &str) -> Result<bool, AllocError> {
    let Some((selections, tables, columns)) = numbers_of(given) else {
        return Ok(false);
    };
    let mut style = String::new(alloc);
    put_parts(alloc, &mut style, selections, tables, columns)?;
    put_read(alloc, answer, style.as_bytes())
}

/// Adds what reading a style gives.
fn put_read(alloc: Global, answer: &mut String, style: &[u8]) -> Result<bool, AllocError> {
    match read_style(alloc, style) {
        Ok(_) => answer.push_str("read")?,
        Err(StyleFault::Bad { why, part }) => put_refusal(alloc, answer, why, part)?,
        Err(StyleFault::OutOfMemory) => return Ok(false),
    }
    Ok(true)
}

/// Three numbers behind one another.
fn numbers_of(given: &str) -> Option<(u64, u64, u64)> {
    let (first, rest) = named_row(given)?;
    let (second, third) = named_row(rest)?;
    Some((number_in(first)?, number_in(second)?, number_in(third)?))
}

/// Adds so many selections and tables, and so many columns behind the last table.
fn put_parts(
    alloc: Global,
    style: &mut String,
    selections: u64,
    tables: u64,
    columns: u64,
) -> Result<(), AllocError> {
    for number in 0..selections {
        put_part(
            alloc,
            style,
            "select",
            number,
            "where = []\ntake = \"ref\"\n",
        )?;
    }
    for number in 0..tables {
        put_part(
            alloc,
            style,
            "table",
            number,
            "source = \"node\"\ngeometry = \"point\"\n",
        )?;
    }
    for number in 0..columns {
        put_part(alloc, style, "table.column", number, "from = \"tags\"\n")?;
    }
    Ok(())
}

/// Adds the header of a part, its name and its lines.
fn put_part(
    alloc: Global,
    style: &mut String,
    header: &str,
    number: u64,
    lines: &str,
) -> Result<(), AllocError> {
    let part = format!(in alloc; "[[{header}]]\nname = \"part_{number}\"\n{lines}")?;
    style.push_str(part.as_str())
}
