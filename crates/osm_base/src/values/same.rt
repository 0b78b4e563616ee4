//! Whether two values are equal, as contracts see them.
ghost use Rattle.std.specs.Prelude.{◌≡◌, IsTrue, ◌↔◌};

use crate::{Cell, Geometry, Items, Place, Row, TableRow, Text};

/// A value that can be told from every other one.
pub trait Same: Sized {
    /// Whether it is equal to another one.
    fn is_same(&self, other: &Self) -> bool
        ensures same { IsTrue result ↔ (self.now ≡ other.now) };

    /// Whether the same values stand in both lists, in the same order.
    fn are_same(items: &[Self], others: &[Self]) -> bool
        ensures same { IsTrue result ↔ (items.now ≡ others.now) }
    {
        if items.len() != others.len() {
            return false;
        }
        for (index, item) in items.iter().enumerate() {
            if !item.is_same(&others[index]) {
                return false;
            }
        }
        true
    }
}

impl<T: Same> Same for Items<T> {
    fn is_same(&self, other: &Self) -> bool {
        T::are_same(self.as_slice(), other.as_slice())
    }
}

impl Same for Place {
    fn is_same(&self, other: &Self) -> bool {
        self.lon == other.lon && self.lat == other.lat
    }
}

impl Same for Text {
    fn is_same(&self, other: &Self) -> bool {
        self.is(other.as_str())
    }
}

impl Same for Geometry {
    fn is_same(&self, other: &Self) -> bool {
        match (self, other) {
            (Geometry::Point(place), Geometry::Point(other)) => place.is_same(other),
            (Geometry::Line(places), Geometry::Line(others)) => places.is_same(others),
            (Geometry::Lines(lines), Geometry::Lines(others)) => lines.is_same(others),
            (Geometry::Area(polygons), Geometry::Area(others)) => polygons.is_same(others),
            _ => false,
        }
    }
}

impl Same for Cell {
    fn is_same(&self, other: &Self) -> bool {
        match (self, other) {
            (Cell::Null, Cell::Null) => true,
            (Cell::Text(text), Cell::Text(other)) => text.is_same(other),
            (Cell::Int(number), Cell::Int(other)) => *number == *other,
            _ => false,
        }
    }
}

impl Same for Row {
    fn is_same(&self, other: &Self) -> bool {
        self.cells.is_same(&other.cells) && self.geometry.is_same(&other.geometry)
    }
}

impl Same for TableRow {
    fn is_same(&self, other: &Self) -> bool {
        self.table == other.table && self.row.is_same(&other.row)
    }
}
