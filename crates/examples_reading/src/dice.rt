//! Numbers in a fixed order that looks like none.
ghost use Rattle.std.specs.Prelude.{◌<◌};

/// What the next number follows from.
#[derive(Drop)]
pub struct Dice {
    state: u64,
}

impl Dice {
    /// Dice that fall in the order of this seed.
    pub fn new(seed: u64) -> Self {
        Self { state: seed }
    }

    /// A number below a bound.
    pub fn below(&mut self, bound: usize) -> usize
        requires { 0 < bound }
        ensures below { result < bound }
    {
        self.next() as usize % bound
    }

    /// Any number, by the steps of SplitMix64.
    fn next(&mut self) -> u64 {
        self.state = self.state.wrapping_add(0x9E37_79B9_7F4A_7C15);
        let mixed = (self.state ^ (self.state >> 30)).wrapping_mul(0xBF58_476D_1CE4_E5B9);
        let mixed = (mixed ^ (mixed >> 27)).wrapping_mul(0x94D0_49BB_1331_11EB);
        mixed ^ (mixed >> 31)
    }
}
