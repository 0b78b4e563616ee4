//! A line of a file of queries.
ghost use Rattle.std.specs.Prelude.{◌≡◌, IfOk};
ghost use Rattle.map_query.specs.Box.{IsBox, IsLongitude, IsLatitude};
ghost use Rattle.map_query.specs.Line.{IsAsked, box_between, box_query, count_query, query_behind, query_of, row_query};
ghost use Rattle.map_query.specs.Words.{words_of};

use crate::fault::QueryWhy;
use crate::query::Query;
use crate::words::{
    Verb, id_in, kind_of, last_word, lat_in, lon_in, next_word, query_text, table_in, verb_of,
};
use osm_base::{GeoBox, Key};
use style_read::Style;

/// The query that a line is.
#[tactic(auto, unfolding(crate::specs::Line::query_of))]
pub(crate) fn query_of(style: &Style, line: &[u8]) -> Result<Query, QueryWhy>
    ensures query { result ≡ query_of style.now line.now }
    ensures asked { IfOk result (IsAsked style.now) }
{
    let text = query_text(line)?;
    let (word, rest) = next_word(text)?;
    let verb = verb_of(word)?;
    query_behind(style, verb, rest)
}

/// The query that the words behind the first one make.
#[tactic(auto, unfolding(crate::specs::Line::query_behind))]
fn query_behind(style: &Style, verb: Verb, text: &str) -> Result<Query, QueryWhy>
    ensures query { result ≡ query_behind style.now verb (words_of text.now) }
    ensures asked { IfOk result (IsAsked style.now) }
{
    match verb {
        Verb::Count => count_query(style, text),
        Verb::Row => row_query(style, text),
        Verb::Box => box_query(style, text),
    }
}

/// A count of the rows of a table.
#[tactic(auto, unfolding(crate::specs::Line::count_query))]
fn count_query(style: &Style, text: &str) -> Result<Query, QueryWhy>
    ensures query { result ≡ count_query style.now (words_of text.now) }
    ensures asked { IfOk result (IsAsked style.now) }
{
    let name = last_word(text)?;
    let table = table_in(style, name)?;
    Ok(Query::Count { table })
}

/// The row of an object.
#[tactic(auto, unfolding(crate::specs::Line::row_query))]
fn row_query(style: &Style, text: &str) -> Result<Query, QueryWhy>
    ensures query { result ≡ row_query style.now (words_of text.now) }
    ensures asked { IfOk result (IsAsked style.now) }
{
    let (name, rest) = next_word(text)?;
    let (letter, rest) = next_word(rest)?;
    let digits = last_word(rest)?;
    let kind = kind_of(letter)?;
    let table = table_in(style, name)?;
    let id = id_in(digits)?;
    Ok(Query::One {
        table,
        key: Key::new(kind, id),
    })
}

/// The rows in a box.
#[tactic(auto, unfolding(crate::specs::Line::box_query))]
fn box_query(style: &Style, text: &str) -> Result<Query, QueryWhy>
    ensures query { result ≡ box_query style.now (words_of text.now) }
    ensures asked { IfOk result (IsAsked style.now) }
{
    let (name, rest) = next_word(text)?;
    let (west, rest) = next_word(rest)?;
    let (south, rest) = next_word(rest)?;
    let (east, rest) = next_word(rest)?;
    let north = last_word(rest)?;
    let table = table_in(style, name)?;
    let west = lon_in(west)?;
    let south = lat_in(south)?;
    let east = lon_in(east)?;
    let north = lat_in(north)?;
    let asked = box_between(west, south, east, north)?;
    Ok(Query::Box { table, asked })
}

/// The box between these sides.
#[tactic(auto, unfolding(crate::specs::Line::box_between))]
fn box_between(west: i32, south: i32, east: i32, north: i32) -> Result<GeoBox, QueryWhy>
    requires across { IsLongitude west × IsLongitude east }
    requires along { IsLatitude south × IsLatitude north }
    ensures sides { result ≡ box_between west south east north }
    ensures good { IfOk result IsBox }
{
    if east < west || north < south {
        return Err(QueryWhy::EmptyBox);
    }
    Ok(GeoBox {
        west,
        south,
        east,
        north,
    })
}
