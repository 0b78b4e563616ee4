//! The words of a line of queries.
ghost use Rattle.std.specs.Prelude.{◌≡◌, ◌<◌, [], ◌∷◌, IfOk, MatchOption, length};
ghost use Rattle.style_read.specs.Style.{StyleOf};
ghost use Rattle.osm_base.specs.values.Key.{IsId};
ghost use Rattle.map_query.specs.Box.{IsLongitude, IsLatitude};
ghost use Rattle.map_query.specs.Fault.{Tells};
ghost use Rattle.map_query.specs.Words.{words_of, query_text, next_word, last_word, verb_of, kind_of, table_in, id_in, lon_in, lat_in};

use crate::fault::QueryWhy;
use opl_object::{coordinate_of, id_of};
use osm_base::{Kind, MAX_LAT, MAX_LON};
use style_read::Style;

/// The greatest longitude and latitude without a sign.
const FURTHEST_EAST: u32 = MAX_LON as u32;

const FURTHEST_NORTH: u32 = MAX_LAT as u32;

/// What the first word of a line asks for.
#[derive(Clone, Copy)]
pub(crate) enum Verb {
    Count,
    Row,
    Box,
}

/// The text that the bytes of a line are.
pub(crate) fn query_text(line: &[u8]) -> Result<&str, QueryWhy>
    ensures text { Tells (λ text. text.now) result (query_text line.now) }
{
    match str::from_utf8(line) {
        Ok(text) => Ok(text),
        Err(_) => Err(QueryWhy::Form),
    }
}

/// What stands before the first space and behind it. `None`: the text has no space.
fn cut(text: &str) -> Option<(&str, &str)>
    ensures words { MatchOption result (words_of text.now ≡ text.now ∷ [])
        (λ (word, rest). words_of text.now ≡ word.now ∷ words_of rest.now) }
{
    text.split_once(' ')
}

/// The first word, and the words behind it, of which there is one at least.
pub(crate) fn next_word(text: &str) -> Result<(&str, &str), QueryWhy>
    ensures word { Tells (λ (word, rest). (word.now, words_of rest.now)) result (next_word (words_of text.now)) }
{
    match cut(text) {
        None => Err(QueryWhy::Form),
        Some((word, rest)) => {
            if word.is_empty() {
                return Err(QueryWhy::Form);
            }
            Ok((word, rest))
        }
    }
}

/// The one word that is left.
pub(crate) fn last_word(text: &str) -> Result<&str, QueryWhy>
    ensures word { Tells (λ word. word.now) result (last_word (words_of text.now)) }
{
    match cut(text) {
        Some(_) => Err(QueryWhy::Form),
        None => {
            if text.is_empty() {
                return Err(QueryWhy::Form);
            }
            Ok(text)
        }
    }
}

/// What a word asks for.
#[tactic(auto, unfolding(crate::specs::Words::verb_of))]
pub(crate) fn verb_of(word: &str) -> Result<Verb, QueryWhy>
    ensures verb { result ≡ verb_of word.now }
{
    match word {
        "count" => Ok(Verb::Count),
        "row" => Ok(Verb::Row),
        "box" => Ok(Verb::Box),
        _ => Err(QueryWhy::Form),
    }
}

/// The kind that a word names.
#[tactic(auto, unfolding(crate::specs::Words::kind_of))]
pub(crate) fn kind_of(word: &str) -> Result<Kind, QueryWhy>
    ensures kind { result ≡ kind_of word.now }
{
    match word {
        "n" => Ok(Kind::Node),
        "w" => Ok(Kind::Way),
        "r" => Ok(Kind::Relation),
        _ => Err(QueryWhy::Form),
    }
}

/// The number of the table with this name.
#[tactic(auto, unfolding(crate::specs::Words::table_in))]
pub(crate) fn table_in(style: &Style, name: &str) -> Result<u32, QueryWhy>
    ensures table { result ≡ table_in style.now name.now }
    ensures there { IfOk result (λ table. table < length style.now.tables) }
{
    match style.table_named(name) {
        Some(table) => Ok(table),
        None => Err(QueryWhy::UnknownTable),
    }
}

/// The id that a word is.
#[tactic(auto, unfolding(crate::specs::Words::id_in))]
pub(crate) fn id_in(word: &str) -> Result<u64, QueryWhy>
    ensures value { result ≡ id_in word.now }
    ensures id { IfOk result (λ id. IsId id) }
{
    match id_of(word.as_bytes()) {
        Ok(id) => Ok(id),
        Err(_) => Err(QueryWhy::Number),
    }
}

/// The longitude that a word is.
#[tactic(auto, unfolding(crate::specs::Words::lon_in))]
pub(crate) fn lon_in(word: &str) -> Result<i32, QueryWhy>
    ensures value { result ≡ lon_in word.now }
    ensures range { IfOk result IsLongitude }
{
    match coordinate_of(FURTHEST_EAST, word.as_bytes()) {
        Ok(lon) => Ok(lon),
        Err(_) => Err(QueryWhy::Number),
    }
}

/// The latitude that a word is.
#[tactic(auto, unfolding(crate::specs::Words::lat_in))]
pub(crate) fn lat_in(word: &str) -> Result<i32, QueryWhy>
    ensures value { result ≡ lat_in word.now }
    ensures range { IfOk result IsLatitude }
{
    match coordinate_of(FURTHEST_NORTH, word.as_bytes()) {
        Ok(lat) => Ok(lat),
        Err(_) => Err(QueryWhy::Number),
    }
}
