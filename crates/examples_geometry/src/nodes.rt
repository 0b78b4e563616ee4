//! Nodes that have places, and the lines of ways along them.
ghost use Rattle.std.specs.Prelude.{None, [], unwrap_or, slice_get};

use crate::notation::{place_of, word_of_line};
use example_table::number_in;
use line_build::{line_of, points_of};
use osm_base::{Key, Lookup, Object, OutOfMemory, Place};
use std::alloc::{AllocError, Global};

/// The place, if it has one, of each node from 0 on.
#[derive(Drop)]
struct Nodes {
    places: Vec<Option<Place>>,
}

impl Lookup for Nodes {
    ghost known = { λ nodes. record {
      place = λ id. unwrap_or (slice_get nodes.places.items id) None;
      object = λ _. None;
      relations_of_way = λ _. [];
      relations_of_node = λ _. [];
    } };

    fn place_of(&self, id: u64) -> Option<Place> {
        match self.places.get(id as usize) {
            None => None,
            Some(place) => *place,
        }
    }

    fn object_of(&self, _key: Key) -> Option<&Object> {
        None
    }

    fn relations_of_way(&self, _id: u64) -> &[u64] {
        &[]
    }

    fn relations_of_node(&self, _id: u64) -> &[u64] {
        &[]
    }
}

/// The nodes whose places stand in a text, node 0 without one first: `-` for a node that has none.
fn nodes_of(alloc: Global, text: &str) -> Result<Nodes, AllocError> {
    let mut places = Vec::new(alloc);
    places.push(None)?;
    for word in text.split_ascii_whitespace() {
        places.push(place_of(word))?;
    }
    Ok(Nodes { places })
}

/// The ids that a text writes.
fn ids_of(alloc: Global, text: &str) -> Result<Option<Vec<u64>>, AllocError> {
    let mut ids = Vec::new(alloc);
    for word in text.split_ascii_whitespace() {
        let Some(id) = number_in(word) else {
            return Ok(None);
        };
        ids.push(id)?;
    }
    Ok(Some(ids))
}

/// The points along nodes, or the line along them for `line`, and `-` where there is none.
pub fn along(alloc: Global, kind: &str, given: &str) -> Result<Option<String>, OutOfMemory> {
    let Some((places, ids)) = given.split_once('/') else {
        return Ok(None);
    };
    let Some(ids) = ids_of(alloc, ids)? else {
        return Ok(None);
    };
    let nodes = nodes_of(alloc, places)?;
    let text = if kind == "line" {
        line_text(alloc, &nodes, &ids)
    } else {
        points_text(alloc, &nodes, &ids)
    };
    Ok(Some(text?))
}

fn points_text(alloc: Global, nodes: &Nodes, ids: &[u64]) -> Result<String, OutOfMemory> {
    let points = points_of(alloc, nodes, ids)?;
    Ok(word_of_line(alloc, points.as_slice())?)
}

fn line_text(alloc: Global, nodes: &Nodes, ids: &[u64]) -> Result<String, OutOfMemory> {
    match line_of(alloc, nodes, ids)? {
        None => Ok(String::from_str(alloc, "-")?),
        Some(line) => Ok(word_of_line(alloc, line.as_slice())?),
    }
}
