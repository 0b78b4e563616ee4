//! What the cells of a row are spelled with.

/// Stands before a number below zero.
pub const MINUS: u8 = b'-';

/// The most digits of a number that a column of whole numbers keeps.
pub const MAX_DIGITS: usize = 18;

/// Stands between two values in a cell.
pub const COMMA: u8 = b',';
