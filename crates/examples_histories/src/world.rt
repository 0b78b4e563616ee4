//! A small map, and random changes of it, as lines of files.

use crate::dice::Dice;
use std::alloc::AllocError;

/// How many ids nodes, ways and relations have.
const NODES: u64 = 14;

const WAYS: u64 = 8;

const RELATIONS: u64 = 5;

/// How many objects there may be.
const OBJECTS: usize = (NODES + WAYS + RELATIONS) as usize;

/// Of each object the dice that its line is written by, where it is there: of the nodes, then of the ways, then of the relations.
#[derive(Drop)]
pub struct World {
    dice: [Option<Dice>; OBJECTS],
}

impl World {
    /// No object.
    pub fn new() -> Self {
        World {
            dice: [None; OBJECTS],
        }
    }

    /// Adds a change of about one object in so many, as a file writes it.
    pub fn change(
        &mut self,
        dice: &mut Dice,
        one_in: u64,
        text: &mut String,
    ) -> Result<(), AllocError> {
        for (place, own) in self.dice.iter_mut().enumerate() {
            if dice.once_in(one_in.max(1)) {
                // Once in five times it is deleted.
                *own = if dice.once_in(5) { None } else { Some(*dice) };
                match own {
                    Some(_) => push_object(dice, place as u64, text)?,
                    None => push_deleted(place as u64, text)?,
                }
            }
        }
        Ok(())
    }

    /// Adds all objects, as a file writes them.
    pub fn push(&self, text: &mut String) -> Result<(), AllocError> {
        for (place, own) in self.dice.iter().enumerate() {
            if let Some(dice) = own {
                let mut dice = *dice;
                push_object(&mut dice, place as u64, text)?;
            }
        }
        Ok(())
    }
}

// The letter and the id of the object at a place.
fn key_of(place: u64) -> (char, u64) {
    if place < NODES {
        ('n', place + 1)
    } else if place < NODES + WAYS {
        ('w', place - NODES + 1)
    } else {
        ('r', place - (NODES + WAYS) + 1)
    }
}

// A line that deletes an object.
fn push_deleted(place: u64, text: &mut String) -> Result<(), AllocError> {
    let (kind, id) = key_of(place);
    write!(text, "{kind}{id} dD\n")
}

// A line that writes a random object.
fn push_object(dice: &mut Dice, place: u64, text: &mut String) -> Result<(), AllocError> {
    let (kind, id) = key_of(place);
    write!(text, "{kind}{id}")?;
    match kind {
        'n' => push_node(dice, text)?,
        'w' => push_way(dice, text)?,
        _ => push_relation(dice, text)?,
    }
    text.push('\n')
}

// A node on a coarse grid: so that rings close and segments touch.
fn push_node(dice: &mut Dice, text: &mut String) -> Result<(), AllocError> {
    let lon = 20 * dice.below(5);
    let lat = 10 * dice.below(5);
    let west = if dice.once_in(4) { "-" } else { "" };
    let south = if dice.once_in(4) { "-" } else { "" };
    let tags = match dice.below(4) {
        0 => " Tamenity=cafe,name=A",
        1 => " Tamenity=cafe",
        2 => " Tname=B",
        _ => "",
    };
    write!(text, "{tags} x{west}{lon} y{south}{lat}")
}

// A way of some nodes, of which not all need be there; it is a ring half of the time.
fn push_way(dice: &mut Dice, text: &mut String) -> Result<(), AllocError> {
    let tags = match dice.below(5) {
        0 => " Thighway=residential,lanes=2",
        1 => " Thighway=path",
        2 => " Tlanduse=grass",
        3 => " Thighway=service,landuse=grass",
        _ => "",
    };
    let count = dice.below(5) + 1;
    let first = dice.below(NODES) + 1;
    write!(text, "{tags} Nn{first}")?;
    for _ in 1..count {
        write!(text, ",n{}", dice.below(NODES) + 1)?;
    }
    if dice.once_in(2) {
        write!(text, ",n{first}")?;
    }
    Ok(())
}

// A relation of some objects, of which not all need be there.
fn push_relation(dice: &mut Dice, text: &mut String) -> Result<(), AllocError> {
    text.push_str(match dice.below(4) {
        0 => " Ttype=multipolygon M",
        1 => " Ttype=route,route=bus,ref=100 M",
        2 => " Tref=M1,route=bus,type=route M",
        _ => " Ttype=route M",
    })?;
    for place in 0..dice.below(4) {
        let before = if place > 0 { "," } else { "" };
        let (kind, ids, role) = match dice.below(8) {
            0 | 1 | 2 => ("n", NODES, "@"),
            3 => ("r", RELATIONS, "@"),
            4 => ("w", WAYS, "@inner"),
            _ => ("w", WAYS, "@outer"),
        };
        let id = dice.below(ids.max(1)) + 1;
        write!(text, "{before}{kind}{id}{role}")?;
    }
    Ok(())
}
