//! The text of a coordinate, in degrees.
ghost use Rattle.std.specs.Prelude.{◌≡◌, ◌<◌, ◌≤◌, length, drop, decimal};
ghost use Rattle.osm_base.specs.values.Degrees.{degrees, fraction, trimmed};

use itoa::write_digits;

/// Units of a coordinate in a degree.
const UNITS: u32 = 10_000_000;

/// The bytes of the longest text: a sign, three digits, a point and seven digits.
const LONGEST: usize = 12;

/// A buffer on the stack for the text of one coordinate at a time.
#[derive(Clone, Copy)]
pub struct DegreesBuffer {
    text: [u8; LONGEST],
}

impl DegreesBuffer {
    /// A buffer that holds no text yet.
    #[inline]
    pub fn new() -> Self {
        Self { text: [0; LONGEST] }
    }

    /// The text of a coordinate, given in units of 1e-7 degree, as degrees.
    #[inline]
    pub fn format(&mut self, units: i32) -> &[u8]
        ensures text { result.now ≡ degrees units }
        ensures short { length result.now ≤ LONGEST }
    {
        let start = write_degrees(units, &mut self.text);
        &self.text[start..]
    }
}

/// Writes the text of a coordinate at the end of the bytes, and says where it starts.
fn write_degrees(units: i32, text: &mut [u8]) -> usize
    requires { length text.old ≡ LONGEST }
    ensures written { drop result text.new ≡ degrees units }
    ensures start { result ≤ length text.new }
{
    let size = units.unsigned_abs();
    let point = write_fraction(size % UNITS, text);
    let whole = write_digits(u64::from(size / UNITS), text, point);
    if units.is_negative() {
        text[whole - 1] = b'-';
        return whole - 1;
    }
    whole
}

/// Writes the part behind the whole degrees at the end of the bytes, and says where it starts.
fn write_fraction(rest: u32, text: &mut [u8]) -> usize
    requires rest { rest < UNITS }
    requires room { length text.old ≡ LONGEST }
    ensures written { drop result text.new ≡ fraction rest }
    ensures before { 4 ≤ result }
    ensures within { result ≤ length text.new }
{
    if rest == 0 {
        return text.len();
    }
    // A 1 in front keeps the zeros behind the point. The point then takes its place.
    let digits = without_last_zeros(UNITS + rest);
    let point = write_digits(u64::from(digits), text, text.len());
    text[point] = b'.';
    point
}

/// The number without the zeros that its digits end with.
fn without_last_zeros(number: u32) -> u32
    requires { 0 < number }
    ensures digits { decimal result ≡ trimmed (decimal number) }
    ensures most { result ≤ number }
{
    let mut digits = number;
    while digits % 10 == 0 {
        digits /= 10;
    }
    digits
}
