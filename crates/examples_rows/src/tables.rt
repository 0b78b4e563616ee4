//! The texts of tables, and the numbers of rows in them.
use example_table::{named_row, number_in};
use osm_base::{
    Cell, Cells, Geometry, Key, Kind, MAX_ID, OutOfMemory, Place, Row, RowChange, Tables, Text,
    TryCopy,
};
use row_text::{row_number, table_text};
use std::alloc::{AllocError, Global};
use style_read::{Style, read_style};

/// Adds the text of the table 1 of a row `SOURCE TABLE:KIND:ID..`; that table has this source. Each row has
/// its own word as its cell, and its point is 0 0.
pub fn text(alloc: Global, answer: &mut String, given: &str) -> Result<bool, AllocError> {
    let Some((source, words)) = named_row(given) else {
        return Ok(false);
    };
    match style_of(alloc, source) {
        Some(style) => put_rows(alloc, answer, &style, words),
        None => Ok(false),
    }
}

/// Adds the text of the table 1 of a copy of such tables, out of which the rows were taken once it was made.
pub fn copied(alloc: Global, answer: &mut String, given: &str) -> Result<bool, AllocError> {
    let Some((source, words)) = named_row(given) else {
        return Ok(false);
    };
    match style_of(alloc, source) {
        Some(style) => put_copied(alloc, answer, &style, words),
        None => Ok(false),
    }
}

/// Adds the number that the row of an object has in a table with a source, of a row `SOURCE KIND:ID`.
pub fn number(alloc: Global, answer: &mut String, given: &str) -> Result<bool, AllocError> {
    match row_number_in(alloc, given) {
        Some(number) => {
            let digits = format!(in alloc; "{number}")?;
            answer.push_str(digits.as_str())?;
            Ok(true)
        }
        None => Ok(false),
    }
}

/// The number that the row of an object has in a table with a source.
fn row_number_in(alloc: Global, given: &str) -> Option<i64> {
    let (source, word) = named_row(given)?;
    let key = key_of(word)?;
    let style = style_of(alloc, source)?;
    Some(row_number(&style, 1, key))
}

/// A style of three tables, of which that in the middle has this source. `None`: there is no such source, or memory ran
/// out.
fn style_of(alloc: Global, source: &str) -> Option<Style> {
    let geometry = geometry_of(source)?;
    let nodes = "source = \"node\"\ngeometry = \"point\"";
    let style = format!(in alloc;
        "[[table]]\nname = \"a\"\n{nodes}\n[[table]]\nname = \"b\"\nsource = \"{source}\"\ngeometry = \"{geometry}\"\n[[table]]\nname = \"c\"\n{nodes}\n"
    );
    match style {
        Ok(style) => read_style(alloc, style.as_bytes()).ok(),
        Err(_) => None,
    }
}

/// The geometry of a source.
fn geometry_of(source: &str) -> Option<&'static str> {
    match source {
        "node" => Some("point"),
        "way" => Some("line"),
        "relation" => Some("lines"),
        "area" => Some("polygon"),
        _ => None,
    }
}

/// Adds the text of the table 1, with a row for each word.
fn put_rows(
    alloc: Global,
    answer: &mut String,
    style: &Style,
    words: &str,
) -> Result<bool, AllocError> {
    let mut tables = Tables::new(alloc);
    if fill(alloc, &mut tables, words) {
        put_text(alloc, answer, style, &tables)
    } else {
        Ok(false)
    }
}

/// Adds the text of the table 1 of a copy, and `differs` where it is not that of the tables from which it was made, or where a row
/// is left in these once it was taken out.
fn put_copied(
    alloc: Global,
    answer: &mut String,
    style: &Style,
    words: &str,
) -> Result<bool, AllocError> {
    let mut tables = Tables::new(alloc);
    if !fill(alloc, &mut tables, words) {
        return Ok(false);
    }
    let Ok(copy) = tables.copy(alloc) else {
        return Ok(false);
    };
    let mut before = String::new(alloc);
    if !put_text(alloc, &mut before, style, &tables)? || !clear(&mut tables, words) {
        return Ok(false);
    }
    if !put_text(alloc, answer, style, &copy)? {
        return Ok(false);
    }
    if answer.as_str() != before.as_str() || !tables.rows().is_empty() {
        answer.push_str(" differs")?;
    }
    Ok(true)
}

/// Takes the row of each word out. False: one is not in its form, or memory ran out.
fn clear(tables: &mut Tables, words: &str) -> bool {
    for word in words.split_ascii_whitespace() {
        let Some((table, key)) = spot_of(word) else {
            return false;
        };
        if tables
            .apply(RowChange {
                table,
                key,
                row: None,
            })
            .is_err()
        {
            return false;
        }
    }
    true
}

/// Puts a row for each word. False: one is not in its form, or memory ran out.
fn fill(alloc: Global, tables: &mut Tables, words: &str) -> bool {
    for word in words.split_ascii_whitespace() {
        if !fill_row(alloc, tables, word) {
            return false;
        }
    }
    true
}

/// Puts the row of a word `TABLE:KIND:ID`.
fn fill_row(alloc: Global, tables: &mut Tables, word: &str) -> bool {
    let Some((table, key)) = spot_of(word) else {
        return false;
    };
    match row_with(alloc, word) {
        Ok(row) => {
            let row = Some(row);
            tables.apply(RowChange { table, key, row }).is_ok()
        }
        Err(_) => false,
    }
}

/// A row with this word as its cell.
fn row_with(alloc: Global, word: &str) -> Result<Row, OutOfMemory> {
    let mut cells = Cells::new(alloc);
    cells.push(Cell::Text(Text::from_str(alloc, word)?))?;
    let geometry = Geometry::Point(Place::new(0, 0));
    Ok(Row { cells, geometry })
}

/// The table and the key of a word `TABLE:KIND:ID`.
pub fn spot_of(word: &str) -> Option<(u32, Key)> {
    let (table, key) = word.split_once(':')?;
    let table = u32::try_from(number_in(table)?).ok()?;
    Some((table, key_of(key)?))
}

/// The key of a word `KIND:ID`.
fn key_of(word: &str) -> Option<Key> {
    let (kind, id) = word.split_once(':')?;
    let kind = kind_of(kind)?;
    let id = number_in(id)?;
    if id == 0 || id > MAX_ID {
        return None;
    }
    Some(Key::new(kind, id))
}

fn kind_of(word: &str) -> Option<Kind> {
    match word {
        "node" => Some(Kind::Node),
        "way" => Some(Kind::Way),
        "relation" => Some(Kind::Relation),
        _ => None,
    }
}

/// Adds the text of the table 1.
fn put_text(
    alloc: Global,
    answer: &mut String,
    style: &Style,
    tables: &Tables,
) -> Result<bool, AllocError> {
    match table_text(alloc, style, tables, 1) {
        Ok(text) => {
            put_shown(answer, text.as_str())?;
            Ok(true)
        }
        Err(_) => Ok(false),
    }
}

/// Adds a text with `\n` for its newlines, and a blank for its tabs; `empty` where it has no line.
fn put_shown(answer: &mut String, text: &str) -> Result<(), AllocError> {
    if text.is_empty() {
        return answer.push_str("empty");
    }
    for character in text.chars() {
        match character {
            '\t' => answer.push(' ')?,
            '\n' => answer.push_str("\\n")?,
            other => answer.push(other)?,
        }
    }
    Ok(())
}
