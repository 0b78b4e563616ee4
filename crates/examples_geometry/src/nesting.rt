//! Rings nested to polygons.
use crate::notation::{lines_of, push_lines, push_word};
use osm_base::{LineList, OutOfMemory};
use ring_build::are_rings;
use ring_nest::nest;
use std::alloc::{AllocError, Global};

/// The polygons of rings, with a `/` between them, and `-` where a ring belongs to none.
pub fn nested(alloc: Global, given: &str) -> Result<Option<String>, OutOfMemory> {
    let Some(rings) = lines_of(alloc, given)? else {
        return Ok(None);
    };
    if !are_rings(&rings) {
        return Ok(None);
    }
    match nest(alloc, &rings)? {
        None => Ok(Some(String::from_str(alloc, "-")?)),
        Some(polygons) => Ok(Some(text_of_polygons(alloc, polygons.as_slice())?)),
    }
}

fn text_of_polygons(alloc: Global, polygons: &[LineList]) -> Result<String, AllocError> {
    let mut text = String::new(alloc);
    for polygon in polygons {
        if !text.is_empty() {
            push_word(&mut text, "/")?;
        }
        push_lines(alloc, &mut text, polygon.as_slice())?;
    }
    Ok(text)
}
