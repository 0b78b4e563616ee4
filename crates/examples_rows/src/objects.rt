//! Objects of a row, and the rows of tables that they give.
use example_table::{bytes_of, number_in};
use object_fold::Objects;
use opl_object::read_line;
use osm_base::{Entry, Key, Object, Row, RowChange, TableRow, TableRows, Tables};
use row_map::{row_of, rows_of, selects};
use row_text::table_text;
use std::alloc::{AllocError, Global};
use std::collections::BTreeSet;
use style_read::{Style, read_style};

/// What stands between two parts of a row, and between two rows of tables.
const BAR: &str = " | ";

/// The style of a town.
const TOWN: &str = "\
[[select]]
name = \"bus\"
where = [\"type=route\", \"route=bus\"]
take = \"ref\"
[[table]]
name = \"cafes\"
source = \"node\"
geometry = \"point\"
where = [\"amenity=cafe\"]
column = [{name = \"name\", from = \"tag:name\"}]
[[table]]
name = \"roads\"
source = \"way\"
geometry = \"line\"
where = [\"highway\"]
column = [{name = \"lanes\", from = \"tag:lanes\", type = \"int\"}, {name = \"buses\", from = \"selected:bus\"}]
[[table]]
name = \"areas\"
source = \"area\"
geometry = \"polygon\"
any = [\"landuse\", \"type=multipolygon\"]
column = [{name = \"tags\", from = \"tags\"}]
";

/// The entry of a line. `None`: it has none.
fn entry_of(alloc: Global, line: &str) -> Option<Entry> {
    match read_line(alloc, line.as_bytes()) {
        Ok(entry) => entry,
        Err(_) => None,
    }
}

/// The style that a field says: that of the town by its name, and else a document.
fn style_of(alloc: Global, field: &str) -> Option<Style> {
    if field == "town" {
        return read_style(alloc, TOWN.as_bytes()).ok();
    }
    match bytes_of(alloc, field) {
        Ok(Some(bytes)) => read_style(alloc, &bytes).ok(),
        _ => None,
    }
}

/// Adds the rows that the objects of a row `STYLE | LINE ..` give, table by table: each as the name of its table and its
/// line, with a semicolon between two fields. The rows of an object are made at once, or one by one.
pub fn rows(
    alloc: Global,
    answer: &mut String,
    given: &str,
    at_once: bool,
) -> Result<bool, AllocError> {
    let Some((style, lines)) = given.split_once(BAR) else {
        return Ok(false);
    };
    match style_of(alloc, style) {
        Some(style) => put_rows(alloc, answer, &style, lines, at_once),
        None => Ok(false),
    }
}

/// Adds the rows that the objects of lines give.
fn put_rows(
    alloc: Global,
    answer: &mut String,
    style: &Style,
    lines: &str,
    at_once: bool,
) -> Result<bool, AllocError> {
    let mut keys = BTreeSet::new(alloc);
    let mut objects = Objects::new(alloc);
    if add_lines(alloc, &mut keys, &mut objects, lines) {
        put_tables(alloc, answer, style, &keys, &objects, at_once)
    } else {
        Ok(false)
    }
}

/// Adds what lines say to objects and their keys. False: one says nothing, or memory ran out.
fn add_lines(alloc: Global, keys: &mut BTreeSet<Key>, objects: &mut Objects, lines: &str) -> bool {
    for line in lines.split(BAR) {
        if !add_line(alloc, keys, objects, line) {
            return false;
        }
    }
    true
}

/// Adds what a line says.
fn add_line(alloc: Global, keys: &mut BTreeSet<Key>, objects: &mut Objects, line: &str) -> bool {
    match entry_of(alloc, line) {
        Some(entry) => keys.insert(entry.key).is_ok() && objects.apply(entry).is_ok(),
        None => false,
    }
}

/// Adds the rows that objects with these keys give.
fn put_tables(
    alloc: Global,
    answer: &mut String,
    style: &Style,
    keys: &BTreeSet<Key>,
    objects: &Objects,
    at_once: bool,
) -> Result<bool, AllocError> {
    let mut tables = Tables::new(alloc);
    if fill(alloc, &mut tables, style, keys, objects, at_once) {
        put_texts(alloc, answer, style, &tables)
    } else {
        Ok(false)
    }
}

/// Puts the rows of objects into tables. False: memory ran out.
fn fill(
    alloc: Global,
    tables: &mut Tables,
    style: &Style,
    keys: &BTreeSet<Key>,
    objects: &Objects,
    at_once: bool,
) -> bool {
    for &key in keys {
        let good = if at_once {
            fill_at_once(alloc, tables, style, key, objects)
        } else {
            fill_one_by_one(alloc, tables, style, key, objects)
        };
        if !good {
            return false;
        }
    }
    true
}

/// Puts the rows of an object, made at once.
fn fill_at_once(
    alloc: Global,
    tables: &mut Tables,
    style: &Style,
    key: Key,
    objects: &Objects,
) -> bool {
    match rows_of(alloc, style, key, objects) {
        Ok(rows) => fill_all(tables, key, rows),
        Err(_) => false,
    }
}

/// Puts these rows of an object.
fn fill_all(tables: &mut Tables, key: Key, rows: TableRows) -> bool {
    let mut good = true;
    for TableRow { table, row } in rows.into_vec() {
        good = fill_row(tables, table, key, row) && good;
    }
    good
}

/// Puts the rows of an object, made one by one.
fn fill_one_by_one(
    alloc: Global,
    tables: &mut Tables,
    style: &Style,
    key: Key,
    objects: &Objects,
) -> bool {
    for number in 0..style.tables.as_slice().len() {
        let good = match row_of(alloc, style, number as u32, key, objects) {
            Ok(Some(row)) => fill_row(tables, number as u32, key, row),
            Ok(None) => true,
            Err(_) => false,
        };
        if !good {
            return false;
        }
    }
    true
}

/// Puts a row into a table.
fn fill_row(tables: &mut Tables, table: u32, key: Key, row: Row) -> bool {
    let row = Some(row);
    tables.apply(RowChange { table, key, row }).is_ok()
}

/// Adds the texts of all tables, as a row says them.
fn put_texts(
    alloc: Global,
    answer: &mut String,
    style: &Style,
    tables: &Tables,
) -> Result<bool, AllocError> {
    for (number, table) in style.tables.as_slice().iter().enumerate() {
        match table_text(alloc, style, tables, number as u32) {
            Ok(text) => put_lines(answer, table.name.as_str(), text.as_str())?,
            Err(_) => return Ok(false),
        }
    }
    Ok(true)
}

/// Adds the lines of a table.
fn put_lines(answer: &mut String, table: &str, lines: &str) -> Result<(), AllocError> {
    for line in lines.lines() {
        put_line(answer, table, line)?;
    }
    Ok(())
}

/// Adds the line of a row.
fn put_line(answer: &mut String, table: &str, line: &str) -> Result<(), AllocError> {
    if !answer.is_empty() {
        answer.push_str(BAR)?;
    }
    answer.push_str(table)?;
    answer.push(' ')?;
    for character in line.chars() {
        answer.push(if character == '\t' { ';' } else { character })?;
    }
    Ok(())
}

/// Adds whether the relation of a row `STYLE | NUMBER | LINE` meets the selection with a number, `yes` or `no`.
pub fn selected(alloc: Global, answer: &mut String, given: &str) -> Result<bool, AllocError> {
    match is_selected(alloc, given) {
        Some(selected) => {
            answer.push_str(if selected { "yes" } else { "no" })?;
            Ok(true)
        }
        None => Ok(false),
    }
}

/// Whether the relation of a row meets its selection. `None`: the row is not in its form.
fn is_selected(alloc: Global, given: &str) -> Option<bool> {
    let (style, rest) = given.split_once(BAR)?;
    let (number, line) = rest.split_once(BAR)?;
    let number = number_in(number)?;
    match style_of(alloc, style) {
        Some(style) => selects_line(alloc, &style, number, line),
        None => None,
    }
}

/// Whether the relation of a line meets a selection.
fn selects_line(alloc: Global, style: &Style, number: u64, line: &str) -> Option<bool> {
    match entry_of(alloc, line) {
        Some(entry) => selects_entry(style, number, &entry),
        None => None,
    }
}

/// Whether the relation of an entry meets a selection. `None`: there is no such selection or relation.
fn selects_entry(style: &Style, number: u64, entry: &Entry) -> Option<bool> {
    let Some(Object::Relation { tags, .. }) = &entry.object else {
        return None;
    };
    if number >= style.selections.as_slice().len() as u64 {
        return None;
    }
    Some(selects(style, number as u32, tags))
}
