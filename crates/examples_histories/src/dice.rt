//! Numbers that look thrown, and are the same for the same seed.
ghost use Rattle.std.specs.Prelude.{◌≤◌, ◌<◌};

/// A generator of numbers: a linear congruence of 64 bits, of which the upper 31 are used.
#[derive(Clone, Copy)]
pub struct Dice {
    state: u64,
}

impl Dice {
    /// The numbers of a seed.
    pub fn new(seed: u64) -> Self {
        Dice {
            state: seed.wrapping_mul(11_400_714_819_323_198_485),
        }
    }

    /// A number below this one.
    pub fn below(&mut self, sides: u64) -> u64
        requires { 1 ≤ sides }
        ensures { result < sides }
    {
        self.state = self
            .state
            .wrapping_mul(6_364_136_223_846_793_005)
            .wrapping_add(1_442_695_040_888_963_407);
        (self.state >> 33) % sides
    }

    /// True once in so many times.
    pub fn once_in(&mut self, times: u64) -> bool
        requires { 1 ≤ times }
    {
        self.below(times) == 0
    }
}
