//! A band of latitudes.
ghost use Rattle.std.specs.Prelude.{◌<◌};

/// The latitudes from one up to another one, which is not among them.
#[derive(Clone, Copy)]
pub(crate) struct Band {
    pub(crate) low: u32,
    pub(crate) high: u32,
    ghost some: { low < high },
}
