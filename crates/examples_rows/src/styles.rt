//! A style of a row, and what reading it gives.
use example_table::bytes_of;
use osm_base::TryCopy;
use std::alloc::{AllocError, Global};
use style_read::{
    Column, Condition, Mode, Origin, Selection, Source, Style, StyleFault, StylePart, StyleWhy,
    TableDef, read_style,
};

/// Adds what reading the style of a row gives.
pub fn read(alloc: Global, answer: &mut String, given: &str) -> Result<bool, AllocError> {
    match bytes_of(alloc, given)? {
        Some(bytes) => put_read(alloc, answer, &bytes),
        None => Ok(false),
    }
}

/// Adds what reading a style gives.
fn put_read(alloc: Global, answer: &mut String, bytes: &[u8]) -> Result<bool, AllocError> {
    match read_style(alloc, bytes) {
        Ok(style) => put_copy(alloc, answer, &style),
        Err(StyleFault::Bad { why, part }) => {
            put_refusal(alloc, answer, why, part)?;
            Ok(true)
        }
        Err(StyleFault::OutOfMemory) => Ok(false),
    }
}

/// Adds a copy of a style.
fn put_copy(alloc: Global, answer: &mut String, style: &Style) -> Result<bool, AllocError> {
    match style.copy(alloc) {
        Ok(copy) => {
            put_style(alloc, answer, &copy)?;
            Ok(true)
        }
        Err(_) => Ok(false),
    }
}

/// Adds a cause and its part, as a row says them.
pub fn put_refusal(
    alloc: Global,
    answer: &mut String,
    why: StyleWhy,
    part: StylePart,
) -> Result<(), AllocError> {
    put_number(alloc, answer, "cause ", why.number() as u32)?;
    match part {
        StylePart::Top => answer.push_str(" top"),
        StylePart::Selection(number) => put_number(alloc, answer, " selection ", number),
        StylePart::Table(number) => put_number(alloc, answer, " table ", number),
    }
}

/// Adds a style, as a row says it.
fn put_style(alloc: Global, answer: &mut String, style: &Style) -> Result<(), AllocError> {
    for selection in style.selections.as_slice() {
        put_selection(alloc, answer, selection)?;
    }
    for table in style.tables.as_slice() {
        put_table(alloc, answer, table)?;
        if style.table_named(table.name.as_str()).is_none() {
            answer.push_str("unnamed")?;
        }
    }
    Ok(())
}

/// Adds texts behind one another.
fn put(answer: &mut String, texts: &[&str]) -> Result<(), AllocError> {
    for text in texts {
        answer.push_str(text)?;
    }
    Ok(())
}

/// Adds a number behind a text.
fn put_number(
    alloc: Global,
    answer: &mut String,
    before: &str,
    number: u32,
) -> Result<(), AllocError> {
    let text = format!(in alloc; "{before}{number}")?;
    answer.push_str(text.as_str())
}

/// Adds `(NAME CONDITIONS take KEY)`.
fn put_selection(
    alloc: Global,
    answer: &mut String,
    selection: &Selection,
) -> Result<(), AllocError> {
    put(answer, &["(", selection.name.as_str()])?;
    put_conditions(alloc, answer, selection.conditions.as_slice())?;
    put(answer, &[" take ", selection.take.as_str(), ")"])
}

/// Adds `[NAME SOURCE MODE all CONDITIONS any CONDITIONS columns COLUMNS]`.
fn put_table(alloc: Global, answer: &mut String, table: &TableDef) -> Result<(), AllocError> {
    put(answer, &["[", table.name.as_str()])?;
    answer.push_str(source_text(table.source))?;
    answer.push_str(mode_text(table.mode))?;
    answer.push_str(" all")?;
    put_conditions(alloc, answer, table.all_of.as_slice())?;
    answer.push_str(" any")?;
    put_conditions(alloc, answer, table.one_of.as_slice())?;
    answer.push_str(" columns")?;
    for column in table.columns.as_slice() {
        put_column(alloc, answer, column)?;
    }
    answer.push_str("]")
}

/// The word of a source.
fn source_text(source: Source) -> &'static str {
    match source {
        Source::Node => " node",
        Source::Way => " way",
        Source::Area => " area",
        Source::Relation => " relation",
    }
}

/// The word of a mode.
fn mode_text(mode: Mode) -> &'static str {
    match mode {
        Mode::Full => " full",
        Mode::Boundary => " boundary",
    }
}

/// Adds conditions, each behind a blank.
fn put_conditions(
    alloc: Global,
    answer: &mut String,
    conditions: &[Condition],
) -> Result<(), AllocError> {
    for condition in conditions {
        put_condition(alloc, answer, condition)?;
    }
    Ok(())
}

/// Adds ` +KEY`, ` -KEY`, ` KEY==VALUE`, ` KEY<>VALUE` or ` @NUMBER`.
fn put_condition(
    alloc: Global,
    answer: &mut String,
    condition: &Condition,
) -> Result<(), AllocError> {
    match condition {
        Condition::Has(key) => put(answer, &[" +", key.as_str()]),
        Condition::Lacks(key) => put(answer, &[" -", key.as_str()]),
        Condition::Is { key, value } => put(answer, &[" ", key.as_str(), "==", value.as_str()]),
        Condition::Isnt { key, value } => put(answer, &[" ", key.as_str(), "<>", value.as_str()]),
        Condition::Selected(number) => put_number(alloc, answer, " @", *number),
    }
}

/// Adds ` NAME:ORIGIN`, with `:int` where it is kept as a whole number.
fn put_column(alloc: Global, answer: &mut String, column: &Column) -> Result<(), AllocError> {
    put(answer, &[" ", column.name.as_str(), ":"])?;
    match &column.origin {
        Origin::Tag(key) => put(answer, &["tag ", key.as_str()])?,
        Origin::AllTags => answer.push_str("tags")?,
        Origin::Selected(number) => put_number(alloc, answer, "@", *number)?,
    }
    answer.push_str(if column.int { ":int" } else { "" })
}
