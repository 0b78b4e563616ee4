//! Places in bytes.
ghost use Rattle.std.specs.Prelude.{◌≡◌, ◌+◌, ◌*◌, ◌^◌, IfSome, IsNone};
ghost use Rattle.std.specs.Int.{w32, cast_signed, cast_unsigned};
ghost use Rattle.value_bytes.specs.Forms.{IsFront, IsFrontless};
ghost use Rattle.value_bytes.specs.Places.{place_bytes, IsPlace};

use crate::numbers::{front_number, push_number};
use crate::{Spelled, ValueFault};
use osm_base::{MAX_LAT, MAX_LON, OutOfMemory, Place};
use std::alloc::Global;

/// How many numbers of four bytes there are.
const FOURS: u64 = 4_294_967_296;

impl Spelled for Place {
    ghost spell = { place_bytes };

    ghost is = { IsPlace };

    fn front<'b>(_alloc: Global, bytes: &'b [u8]) -> Result<(Self, &'b [u8]), ValueFault> {
        match front_place(bytes) {
            Some((place, rest)) => Ok((place, rest)),
            None => Err(ValueFault::NotSpelled),
        }
    }

    fn push_to(&self, out: &mut Vec<u8>) -> Result<(), OutOfMemory> {
        push_number(out, place_number(self.lon, self.lat))?;
        Ok(())
    }
}

/// The place at the front, and the bytes behind it. `None`: none stands there.
fn front_place(bytes: &[u8]) -> Option<(Place, &[u8])>
    ensures place { IfSome result (λ (place, rest). IsFront place_bytes IsPlace bytes.now place rest.now) }
    ensures none { IsNone result → IsFrontless place_bytes IsPlace bytes.now }
{
    let Some((both, rest)) = front_number(bytes) else {
        return None;
    };
    match place_of((both % FOURS) as u32, (both / FOURS) as u32) {
        Some(place) => Some((place, rest)),
        None => None,
    }
}

/// The place with the longitude and the latitude of these bits. `None`: it is not on the earth.
fn place_of(lon: u32, lat: u32) -> Option<Place>
    ensures place { IfSome result (λ place. place ≡ record { lon = cast_signed w32 lon; lat = cast_signed w32 lat }) }
    ensures earth { IfSome result IsPlace }
    ensures none { IsNone result → IsPlace (record { lon = cast_signed w32 lon; lat = cast_signed w32 lat }) → ⊥ }
{
    place_at(lon.cast_signed(), lat.cast_signed())
}

/// The place with this longitude and latitude. `None`: it is not on the earth.
fn place_at(lon: i32, lat: i32) -> Option<Place>
    ensures place { IfSome result (λ place. place ≡ record { lon = lon; lat = lat }) }
    ensures earth { IfSome result IsPlace }
    ensures none { IsNone result → IsPlace (record { lon = lon; lat = lat }) → ⊥ }
{
    let on_earth = lon <= MAX_LON && lon >= -MAX_LON && lat <= MAX_LAT && lat >= -MAX_LAT;
    if on_earth {
        Some(Place::new(lon, lat))
    } else {
        None
    }
}

/// One number of eight bytes for both of a place, which is written and read at once.
fn place_number(lon: i32, lat: i32) -> u64
    ensures number { result ≡ cast_unsigned w32 lon + cast_unsigned w32 lat * 2 ^ 32 }
{
    lon.cast_unsigned() as u64 + lat.cast_unsigned() as u64 * FOURS
}
