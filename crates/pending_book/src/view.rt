//! What a book is told once, and what a seat knows.

use std::collections::LinkedList;

/// How many tickets and shares a book has.
#[derive(Clone, Copy)]
pub struct Size {
    pub tickets: u32,
    pub share: u32,
}

/// What a seat knows: how many tickets its book has, its share, the tickets that it drew, in order, and
/// how many draws gave it none. No value of it is made.
pub struct View {
    pub tickets: u32,
    pub share: u32,
    pub drawn: LinkedList<u32>,
    pub nones: u32,
}
