//! The style of the examples of queries, and rows as words write them.
use crate::refusal::Refusal;
use crate::tables::spot_of;
use map_query::{Queries, QueryFault, read_queries};
use osm_base::{
    Cell, Cells, Geometry, Items, LineList, MAX_LAT, MAX_LON, Place, Places, Row, RowChange, Tables,
};
use std::alloc::Global;
use style_read::{Style, read_style};

/// The text of a style of the tables `cafes` of nodes, `roads` of ways and `parks` of areas.
const STYLE: &str =
    "[[table]]\nname = \"cafes\"\nsource = \"node\"\ngeometry = \"point\"\n[[table]]\nname = \"roads\"\nsource = \"way\"\ngeometry = \"line\"\n[[table]]\nname = \"parks\"\nsource = \"area\"\ngeometry = \"polygon\"\n";

/// The style of the examples.
pub fn style(alloc: Global) -> Result<Style, Refusal> {
    match read_style(alloc, STYLE.as_bytes()) {
        Ok(style) => Ok(style),
        Err(_) => Err(Refusal::OutOfMemory),
    }
}

/// The queries of a file, the contract left behind.
pub fn queries_of(alloc: Global, bytes: &[u8], style: &Style) -> Result<Queries, QueryFault> {
    if bytes.len() > 4_294_967_295 {
        return Err(QueryFault::OutOfMemory);
    }
    read_queries(alloc, bytes, style)
}

/// Puts a row into tables for each word.
pub fn put_rows(alloc: Global, words: &str, tables: &mut Tables) -> Result<(), Refusal> {
    for word in words.split_ascii_whitespace() {
        tables.apply(change_of(alloc, word)?)?;
    }
    Ok(())
}

/// The change that puts the row of a word `TABLE:KIND:ID:GEOMETRY`.
fn change_of(alloc: Global, word: &str) -> Result<RowChange, Refusal> {
    let Some((spot, shape)) = word.rsplit_once(':') else {
        return Err(Refusal::NoRow);
    };
    let Some((table, key)) = spot_of(spot) else {
        return Err(Refusal::NoRow);
    };
    let mut cells = Cells::new(alloc);
    cells.push(Cell::Null)?;
    let geometry = geometry_of(alloc, shape)?;
    let row = Some(Row { cells, geometry });
    Ok(RowChange { table, key, row })
}

/// The geometry of a word: a place `X,Y`; behind a letter `l` the places of a line, with semicolons between
/// them; behind an `m` lines, and behind an `a` the rings of one polygon, with slashes between them.
fn geometry_of(alloc: Global, word: &str) -> Result<Geometry, Refusal> {
    if let Some(places) = word.strip_prefix('l') {
        return Ok(Geometry::Line(places_of(alloc, places)?));
    }
    if let Some(lines) = word.strip_prefix('m') {
        return Ok(Geometry::Lines(lines_of(alloc, lines)?));
    }
    if let Some(rings) = word.strip_prefix('a') {
        let mut polygons = Items::new(alloc);
        polygons.push(lines_of(alloc, rings)?)?;
        return Ok(Geometry::Area(polygons));
    }
    match place_of(word) {
        Some(place) => Ok(Geometry::Point(place)),
        None => Err(Refusal::NoRow),
    }
}

/// The lines between slashes.
fn lines_of(alloc: Global, word: &str) -> Result<LineList, Refusal> {
    let mut lines = Items::new(alloc);
    for line in word.split('/') {
        lines.push(places_of(alloc, line)?)?;
    }
    Ok(lines)
}

/// The places between semicolons, none for an empty word.
fn places_of(alloc: Global, word: &str) -> Result<Places, Refusal> {
    let mut places = Items::new(alloc);
    push_places(word, &mut places)?;
    Ok(places)
}

/// Adds the places between semicolons, none for an empty word.
fn push_places(word: &str, places: &mut Places) -> Result<(), Refusal> {
    if word.is_empty() {
        return Ok(());
    }
    for part in word.split(';') {
        match place_of(part) {
            Some(place) => places.push(place)?,
            None => return Err(Refusal::NoRow),
        }
    }
    Ok(())
}

/// The place of a word `X,Y`, in units of 1e-7 degree.
fn place_of(word: &str) -> Option<Place> {
    let (lon, lat) = word.split_once(',')?;
    place_at(lon.parse::<i32>().ok()?, lat.parse::<i32>().ok()?)
}

/// The place with this longitude and latitude, if there is one.
fn place_at(lon: i32, lat: i32) -> Option<Place> {
    if lon < -MAX_LON || lon > MAX_LON || lat < -MAX_LAT || lat > MAX_LAT {
        return None;
    }
    Some(Place::new(lon, lat))
}
