//! A place on the earth, in whole units of 1e-7 degree.
ghost use Rattle.std.specs.Prelude.{◌≡◌};
ghost use Rattle.osm_base.specs.values.Place.{PlaceOf, IsOnEarth};

use std::marker::Model;

/// The greatest longitude in units of 1e-7 degree; the least is its negative.
pub const MAX_LON: i32 = 1_800_000_000;

/// The greatest latitude in units of 1e-7 degree; the least is its negative.
pub const MAX_LAT: i32 = 900_000_000;

/// A longitude and a latitude in units of 1e-7 degree.
#[derive(Clone, Copy, Debug, PartialEq, Eq, PartialOrd, Ord)]
pub struct Place {
    pub lon: i32,
    pub lat: i32,
}

impl Model for Place {
    ghost Value = { PlaceOf };

    ghost view = { λ place. record { lon = place.lon; lat = place.lat } };

    ghost inverse = { λ place. record { lon = place.lon; lat = place.lat } };

    ghost invariant = { λ place. IsOnEarth place.lon place.lat };
}

impl Place {
    /// The place with this longitude and latitude.
    pub fn new(lon: i32, lat: i32) -> Self
        requires { IsOnEarth lon lat }
        ensures fields { result ≡ record { lon = lon; lat = lat } }
    {
        Self { lon, lat }
    }
}

/// A box of longitudes and latitudes in units of 1e-7 degree, its sides included.
#[derive(Clone, Copy, Debug, PartialEq, Eq)]
pub struct GeoBox {
    pub west: i32,
    pub south: i32,
    pub east: i32,
    pub north: i32,
}
