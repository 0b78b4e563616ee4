//! A file of queries.
ghost use Rattle.std.specs.Prelude.{◌≡◌, ◌<◌, ◌≤◌, ◌∷◌, map, length, Ok, IfOk, IfErr};
ghost use Rattle.std.specs.List.{AllByRecursion};
ghost use Rattle.opl_lines.specs.Lines.{lines_of};
ghost use Rattle.opl_lines.specs.Steps.{IsFront};
ghost use Rattle.map_query.specs.Line.{IsAsked, query_of};
ghost use Rattle.map_query.specs.Reading.{HasItsCause};

use crate::fault::QueryFault;
use crate::line::query_of;
use crate::query::{Queries, Query};
use memchr::memchr;
use opl_lines::NEWLINE;
use osm_base::Items;
use std::alloc::Global;
use style_read::Style;

/// The queries of a file, a line each. `Bad`: the first line that is no query.
pub fn read_queries(alloc: Global, bytes: &[u8], style: &Style) -> Result<Queries, QueryFault>
    requires length { length bytes.now ≤ 4294967295 }
    ensures queries { IfOk result (λ queries. map Ok queries ≡ map (query_of style.now) (lines_of bytes.now)) }
    ensures asked { IfOk result (AllByRecursion (IsAsked style.now)) }
    ensures bad { IfErr result (HasItsCause style.now (lines_of bytes.now)) }
{
    let mut queries = Vec::new(alloc);
    let mut rest = bytes;
    while rest.len() > 0 {
        let (line, after) = first_line(rest);
        match query_of(style, line) {
            Ok(query) => queries.push(query)?,
            Err(why) => {
                return Err(QueryFault::Bad {
                    line: queries.len() as u32 + 1,
                    why,
                });
            }
        }
        rest = after;
    }
    Ok(Items::from_vec(queries))
}

/// The first line of bytes, and what is behind its newline.
fn first_line(bytes: &[u8]) -> (&[u8], &[u8])
    requires { 0 < length bytes.now }
    ensures lines { lines_of bytes.now ≡ result.0.now ∷ lines_of result.1.now }
    ensures shorter { length result.1.now < length bytes.now }
{
    let (line, is_whole) = up_to_newline(bytes);
    if is_whole && line.len() < bytes.len() {
        let (_, rest) = bytes.split_at(line.len() + 1);
        return (line, rest);
    }
    (line, &[])
}

/// The bytes before the first newline, and whether there is one.
fn up_to_newline(bytes: &[u8]) -> (&[u8], bool)
    ensures front { IsFront bytes.now result.0.now result.1 }
{
    match memchr(NEWLINE, bytes) {
        Some(end) => (&bytes[..end], true),
        None => (bytes, false),
    }
}
