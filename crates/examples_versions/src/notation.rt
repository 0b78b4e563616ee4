//! The style of the examples, and rows, queries and boxes as words write them.
use crate::refusal::Refusal;
use example_table::{bytes_of, number_in, signed_of};
use map_query::{Queries, QueryFault, read_queries};
use osm_base::{
    Cell, Cells, GeoBox, Geometry, Items, Key, Kind, MAX_ID, MAX_LAT, MAX_LON, Place, Places, Row,
    RowChange, RowChanges, Spot, Tables,
};
use std::alloc::Global;
use style_read::{Style, read_style};

/// The text of a style of the tables `cafes` and `roads`, of which each has one column of numbers.
const STYLE: &str = "
[[table]]
name = \"cafes\"
source = \"node\"
geometry = \"point\"
column = [{ name = \"seats\", from = \"tag:seats\", type = \"int\" }]
[[table]]
name = \"roads\"
source = \"way\"
geometry = \"line\"
column = [{ name = \"lanes\", from = \"tag:lanes\", type = \"int\" }]
";

/// The style of the examples.
pub fn style(alloc: Global) -> Result<Style, Refusal> {
    match read_style(alloc, STYLE.as_bytes()) {
        Ok(style) => Ok(style),
        Err(_) => Err(Refusal::OutOfMemory),
    }
}

/// The queries of lines, with `\n` between them.
pub fn queries_of(alloc: Global, style: &Style, lines: &str) -> Result<Queries, Refusal> {
    match bytes_of(alloc, lines.trim())? {
        Some(bytes) => read(alloc, style, &bytes),
        None => Err(Refusal::NoRow),
    }
}

/// The queries of the lines of a file.
fn read(alloc: Global, style: &Style, bytes: &[u8]) -> Result<Queries, Refusal> {
    if bytes.len() > 4_294_967_295 {
        return Err(Refusal::NoRow);
    }
    match read_queries(alloc, bytes, style) {
        Ok(queries) => Ok(queries),
        Err(QueryFault::Bad { .. }) => Err(Refusal::NoRow),
        Err(QueryFault::OutOfMemory) => Err(Refusal::OutOfMemory),
    }
}

/// Tables with a row for each word.
pub fn tables_of(alloc: Global, words: &str) -> Result<Tables, Refusal> {
    let mut tables = Tables::new(alloc);
    change_tables(alloc, &mut tables, words)?;
    Ok(tables)
}

/// Changes a row of tables for each word.
pub fn change_tables(alloc: Global, tables: &mut Tables, words: &str) -> Result<(), Refusal> {
    for word in words.split_ascii_whitespace() {
        tables.apply(change_of(alloc, word)?)?;
    }
    Ok(())
}

/// The change of a row for each word.
pub fn changes_of(alloc: Global, words: &str) -> Result<RowChanges, Refusal> {
    let mut changes = Items::new(alloc);
    for word in words.split_ascii_whitespace() {
        changes.push(change_of(alloc, word)?)?;
    }
    Ok(changes)
}

/// The change of a word `TABLE:ID:NUMBER:PLACE`, or `TABLE:ID:NUMBER:PLACE;PLACE..` of a line, or `TABLE:ID:-` where
/// the row is gone.
fn change_of(alloc: Global, word: &str) -> Result<RowChange, Refusal> {
    let Some((Spot { table, key }, row)) = spot_of(word) else {
        return Err(Refusal::NoRow);
    };
    let row = if row == "-" {
        None
    } else {
        Some(word_row(alloc, row)?)
    };
    Ok(RowChange { table, key, row })
}

/// The spot of a word `TABLE:ID:REST`, where all objects are nodes, and the rest.
pub fn spot_of(word: &str) -> Option<(Spot, &str)> {
    let (table, rest) = word.split_once(':')?;
    let (id, rest) = rest.split_once(':')?;
    let table = table.parse::<u32>().ok()?;
    let id = number_in(id)?;
    if id == 0 || id > MAX_ID {
        return None;
    }
    let key = Key::new(Kind::Node, id);
    Some((Spot { table, key }, rest))
}

/// The row of a word `NUMBER:PLACE` or `NUMBER:PLACE;PLACE..`.
fn word_row(alloc: Global, word: &str) -> Result<Row, Refusal> {
    let Some((number, places)) = word.split_once(':') else {
        return Err(Refusal::NoRow);
    };
    let Some(number) = signed_of(number) else {
        return Err(Refusal::NoRow);
    };
    let mut cells = Cells::new(alloc);
    cells.push(Cell::Int(number))?;
    let geometry = geometry_of(alloc, places)?;
    Ok(Row { cells, geometry })
}

/// A place, or the line of several.
fn geometry_of(alloc: Global, word: &str) -> Result<Geometry, Refusal> {
    let mut places = Places::new(alloc);
    push_places(&mut places, word)?;
    Ok(match places.as_slice() {
        [place] => Geometry::Point(*place),
        _ => Geometry::Line(places),
    })
}

/// Adds the places between semicolons.
fn push_places(places: &mut Places, word: &str) -> Result<(), Refusal> {
    for part in word.split(';') {
        match place_of(part) {
            Some(place) => places.push(place)?,
            None => return Err(Refusal::NoRow),
        }
    }
    Ok(())
}

/// The place of a word `LON,LAT`, in units of 1e-7 degree.
fn place_of(word: &str) -> Option<Place> {
    let (lon, lat) = word.split_once(',')?;
    place_at(units_of(lon)?, units_of(lat)?)
}

/// The place with this longitude and latitude, if there is one.
fn place_at(lon: i32, lat: i32) -> Option<Place> {
    if lon < -MAX_LON || lon > MAX_LON || lat < -MAX_LAT || lat > MAX_LAT {
        return None;
    }
    Some(Place::new(lon, lat))
}

/// The box of a word `WEST,SOUTH,EAST,NORTH`, in units of 1e-7 degree.
pub fn box_of(word: &str) -> Option<GeoBox> {
    let (west, rest) = word.split_once(',')?;
    let (south, rest) = rest.split_once(',')?;
    let (east, north) = rest.split_once(',')?;
    let from = place_at(units_of(west)?, units_of(south)?)?;
    let to = place_at(units_of(east)?, units_of(north)?)?;
    if to.lon < from.lon || to.lat < from.lat {
        return None;
    }
    Some(GeoBox {
        west: from.lon,
        south: from.lat,
        east: to.lon,
        north: to.lat,
    })
}

/// A number of units.
fn units_of(word: &str) -> Option<i32> {
    word.parse::<i32>().ok()
}
