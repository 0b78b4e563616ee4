//! The polygons of rings: which rings are outer ones, and which inner rings belong to them.
//!
//! It stands on the kernels of `lanes_geo`, which has the definition of polygons too. A relation's rings
//! come in, and its polygons go out, which its rows and its tiles are made of.
//!
//! A ring holds another one where the first place of that which does not lie on it is within it. A ring
//! that an even number of rings hold is an outer one; another one belongs to the lowest ring that holds
//! it and is held by one less. `nest` gives the outer rings in order, each followed by its inner rings
//! in order, and None exactly where an inner ring belongs to none. The definition counts over all pairs
//! of rings; the code asks only pairs of which the one begins in the box of the other, since a ring holds
//! none that begins elsewhere. A tree of boxes over the rings, split at the middle of their west or south
//! sides down to few rings, leads to these: where few boxes lie one over the other, n rings take n log n
//! steps. Of many rings, the edges tell how deep a ring is, however many hold it: each half line enters a
//! simple ring as often as it leaves it, or once more, so that how many of these rings have a place within
//! them is a difference of two counts (`known`, `told`), each found by halving in slabs of latitudes
//! (`slabs`, `row`). An inner ring asks for its owner the rings of one depth less alone (`owners`). A ring
//! through whose first place another one may go, or more rings whose edges cross, are asked one by one.
//! What is kept grows with their edges times a logarithm. `lies_on` and `crosses_odd` are exact in whole
//! numbers of 64 bits. The answer has its own copy of each ring.
#![tactic(auto)]

mod asked;
mod band;
mod boxed;
mod boxes;
mod deep;
mod edge;
mod edges;
mod holders;
mod known;
mod latitudes;
mod opened;
mod opening;
mod owners;
mod polygons;
mod ring_edges;
mod ring_tree;
mod rings;
mod row;
mod segment;
mod slabs;
mod spot;
mod told;
mod tree;

pub use polygons::nest;
pub use rings::{crosses_odd, lies_on};
