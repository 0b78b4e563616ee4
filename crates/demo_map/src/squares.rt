//! How many squares a map has.
ghost use Rattle.std.specs.Prelude.{◌≤◌};
ghost use Rattle.demo_map.specs.declared.squares.TheConstants.{MAX_SQUARES};

/// The most squares of a map.
pub const MAX_SQUARES: u32 = 100_000;

/// A number of squares that a map may have: one at least.
#[derive(Clone, Copy)]
pub struct Squares {
    pub count: u32,
    ghost some: { 1 ≤ count },
    ghost few: { count ≤ MAX_SQUARES },
}
