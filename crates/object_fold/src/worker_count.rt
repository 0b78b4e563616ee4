//! How many workers share a piece of work.
ghost use Rattle.std.specs.Prelude.{◌<◌};

/// A number of workers, one at least.
#[derive(Clone, Copy, Debug)]
pub struct WorkerCount {
    pub count: u32,
    ghost some: { 0 < count },
}
