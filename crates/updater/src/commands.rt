//! The commands, each in a room of its own.
pub mod append;
pub mod check;
pub mod demo;
pub mod export;
pub mod feed;
pub mod follow;
pub mod import;
pub mod init;
pub mod lines;
pub mod migrate;
pub mod points;
pub mod query;
pub mod replay;
pub mod serve;
pub mod tiles;
