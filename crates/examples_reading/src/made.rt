//! Lines as files mostly have them.
ghost use Rattle.std.specs.Prelude.{◌<◌};

use crate::dice::Dice;
use std::alloc::{AllocError, Global};

/// Keys of tags, as they rise.
const KEYS: [&str; 6] = [
    "addr:street",
    "amenity",
    "building",
    "highway",
    "name",
    "source",
];

/// Values of tags, roles and names.
const TEXTS: [&str; 8] = [
    "yes",
    "outer",
    "residential",
    "Caf\u{e9}",
    "Main%20%Street",
    "%1f600%",
    "a-b_c",
    "",
];

/// A line of some object.
pub fn made_line(alloc: Global, dice: &mut Dice) -> Result<Vec<u8>, AllocError> {
    let mut line = Vec::with_capacity(alloc, 256)?;
    let kind = dice.below(3);
    line.push(letter_of(kind))?;
    put_id(&mut line, dice)?;
    put_head(&mut line, dice)?;
    put_tags(&mut line, dice)?;
    match kind {
        0 => put_place(&mut line, dice)?,
        1 => put_nodes(&mut line, dice)?,
        _ => put_members(&mut line, dice)?,
    }
    Ok(line)
}

/// The letter of a kind.
fn letter_of(kind: usize) -> u8 {
    match kind {
        0 => b'n',
        1 => b'w',
        _ => b'r',
    }
}

/// Puts the fields that no entry keeps, most times in their usual order.
fn put_head(line: &mut Vec<u8>, dice: &mut Dice) -> Result<(), AllocError> {
    line.extend_from_slice(b" v")?;
    put_number(line, dice.below(100))?;
    line.extend_from_slice(if dice.below(20) == 0 { b" dD" } else { b" dV" })?;
    line.extend_from_slice(b" c")?;
    put_number(line, dice.below(200_000_000))?;
    line.extend_from_slice(b" t2024-05-01T10:00:00Z i")?;
    put_number(line, dice.below(1_000_000))?;
    line.extend_from_slice(b" u")?;
    put_text(line, dice)
}

/// Puts tags whose keys rise.
fn put_tags(line: &mut Vec<u8>, dice: &mut Dice) -> Result<(), AllocError> {
    line.extend_from_slice(b" T")?;
    let mut some = false;
    for key in KEYS {
        if dice.below(3) == 0 {
            if some {
                line.push(b',')?;
            }
            some = true;
            line.extend_from_slice(key.as_bytes())?;
            line.push(b'=')?;
            put_text(line, dice)?;
        }
    }
    Ok(())
}

/// Puts a longitude and a latitude.
fn put_place(line: &mut Vec<u8>, dice: &mut Dice) -> Result<(), AllocError> {
    line.extend_from_slice(b" x")?;
    put_degrees(line, dice, 180)?;
    line.extend_from_slice(b" y")?;
    put_degrees(line, dice, 90)
}

/// Puts a coordinate below so many degrees, with up to nine decimals.
fn put_degrees(line: &mut Vec<u8>, dice: &mut Dice, below: usize) -> Result<(), AllocError>
    requires { 0 < below }
{
    if dice.below(2) == 0 {
        line.push(b'-')?;
    }
    put_number(line, dice.below(below))?;
    line.push(b'.')?;
    let most = if dice.below(8) == 0 {
        1_000_000_000
    } else {
        10_000_000
    };
    put_number(line, dice.below(most))
}

/// Puts node references, some with their place.
fn put_nodes(line: &mut Vec<u8>, dice: &mut Dice) -> Result<(), AllocError> {
    line.extend_from_slice(b" N")?;
    for index in 0..dice.below(8) {
        if index != 0 {
            line.push(b',')?;
        }
        line.push(b'n')?;
        put_id(line, dice)?;
        if dice.below(16) == 0 {
            line.push(b'x')?;
            put_degrees(line, dice, 180)?;
            line.push(b'y')?;
            put_degrees(line, dice, 90)?;
        }
    }
    Ok(())
}

/// Puts members with their roles.
fn put_members(line: &mut Vec<u8>, dice: &mut Dice) -> Result<(), AllocError> {
    line.extend_from_slice(b" M")?;
    for index in 0..dice.below(6) {
        if index != 0 {
            line.push(b',')?;
        }
        line.push(letter_of(dice.below(3)))?;
        put_id(line, dice)?;
        line.push(b'@')?;
        put_text(line, dice)?;
    }
    Ok(())
}

/// Puts an id, most times a small one.
fn put_id(line: &mut Vec<u8>, dice: &mut Dice) -> Result<(), AllocError> {
    let most = if dice.below(8) == 0 {
        9_223_372_036_854_775_808
    } else {
        10_000_000_000
    };
    put_number(line, dice.below(most))
}

/// Puts one of the texts.
fn put_text(line: &mut Vec<u8>, dice: &mut Dice) -> Result<(), AllocError> {
    let text = TEXTS[dice.below(TEXTS.len())];
    line.extend_from_slice(text.as_bytes())
}

/// Puts a number.
fn put_number(line: &mut Vec<u8>, number: usize) -> Result<(), AllocError> {
    let mut digits = itoa::Buffer::new();
    line.extend_from_slice(digits.format(number).as_bytes())
}
