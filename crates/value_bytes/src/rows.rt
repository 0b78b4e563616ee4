//! Cells and geometries of rows in bytes.
ghost use Rattle.value_bytes.specs.Rows.{cell_bytes, IsCell, geometry_bytes, IsGeometry};

use crate::numbers::{front_byte, front_int, push_int};
use crate::spelled::push_form;
use crate::texts::{front_text, push_text};
use crate::{Spelled, ValueFault};
use osm_base::{Cell, Geometry, LineList, OutOfMemory, Place, Places, Polygons, Text};
use std::alloc::Global;

impl Spelled for Cell {
    ghost spell = { cell_bytes };

    ghost is = { IsCell };

    fn front<'b>(alloc: Global, bytes: &'b [u8]) -> Result<(Self, &'b [u8]), ValueFault> {
        let Some((byte, behind)) = front_byte(bytes) else {
            return Err(ValueFault::NotSpelled);
        };
        match byte {
            0 => Ok((Cell::Null, behind)),
            1 => match front_text(behind) {
                Some((text, rest)) => Ok((Cell::Text(Text::from_str(alloc, text)?), rest)),
                None => Err(ValueFault::NotSpelled),
            },
            2 => match front_int(behind) {
                Some((number, rest)) => Ok((Cell::Int(number), rest)),
                None => Err(ValueFault::NotSpelled),
            },
            _ => Err(ValueFault::NotSpelled),
        }
    }

    fn push_to(&self, out: &mut Vec<u8>) -> Result<(), OutOfMemory> {
        match self {
            Cell::Null => {
                out.push(0)?;
                Ok(())
            }
            Cell::Text(text) => {
                out.push(1)?;
                push_text(out, text.as_str())?;
                Ok(())
            }
            Cell::Int(number) => {
                out.push(2)?;
                push_int(out, *number)?;
                Ok(())
            }
        }
    }
}

impl Spelled for Geometry {
    ghost spell = { geometry_bytes };

    ghost is = { IsGeometry };

    fn front<'b>(alloc: Global, bytes: &'b [u8]) -> Result<(Self, &'b [u8]), ValueFault> {
        let Some((byte, behind)) = front_byte(bytes) else {
            return Err(ValueFault::NotSpelled);
        };
        match byte {
            1 => match Place::front(alloc, behind) {
                Ok(found) => Ok((Geometry::Point(found.0), found.1)),
                Err(fault) => Err(fault),
            },
            2 => match Places::front(alloc, behind) {
                Ok((places, rest)) => Ok((Geometry::Line(places), rest)),
                Err(fault) => Err(fault),
            },
            3 => match LineList::front(alloc, behind) {
                Ok((lines, rest)) => Ok((Geometry::Lines(lines), rest)),
                Err(fault) => Err(fault),
            },
            4 => match Polygons::front(alloc, behind) {
                Ok((polygons, rest)) => Ok((Geometry::Area(polygons), rest)),
                Err(fault) => Err(fault),
            },
            _ => Err(ValueFault::NotSpelled),
        }
    }

    fn push_to(&self, out: &mut Vec<u8>) -> Result<(), OutOfMemory> {
        match self {
            Geometry::Point(place) => push_form(out, 1, place),
            Geometry::Line(places) => push_form(out, 2, places),
            Geometry::Lines(lines) => push_form(out, 3, lines),
            Geometry::Area(polygons) => push_form(out, 4, polygons),
        }
    }
}
