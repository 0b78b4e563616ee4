//! What an object and a row are made of, each kind of value in a file of its own.
pub mod degrees;
pub mod items;
pub mod key;
pub mod object;
pub mod place;
pub mod row;
pub mod same;
pub mod tags;
pub mod text;
