// Why a call is refused, and the refusal of a point.
ghost use Rattle.std.specs.Prelude.{◌≡◌, Some, decimal};
ghost use Rattle.surface.specs.Refusals.{number_of, point_answer};

use geomath::accepted;
use std::fmt;

#[derive(Clone, Copy, PartialEq, Eq, Hash, Debug)]
pub enum Refusal {
    // an equatorial radius not from 1 to 10^9, a flattening not from -0.02 to 0.02, or a scale
    // not from 1 to 10^6
    Shape = 1,
    // a whole area that is not finite, or below 2^-1021
    WholeArea = 2,
    // a latitude not from -90 to 90, or a longitude that is not finite
    Point = 3,
    // a row longer than it may be, or not as long as it was
    RowLength = 4,
    // no room for another point
    Full = 5,
    // a place at or above the count
    Place = 6,
    // no edit record to take back
    NothingToTakeBack = 7,
    // a newest edit record that does not fit the outline
    UnfitRecord = 8,
}

impl Refusal {
    // The number by which the refusal is told; by a name, for a reader that holds it by reference.
    pub fn number(&self) -> u8
        ensures { result ≡ number_of self.now }
    {
        u8::from(*self)
    }
}

impl From<Refusal> for u8 {
    ghost from_gives = { λ refusal n. n ≡ number_of refusal };

    fn from(refusal: Refusal) -> u8 {
        refusal as u8
    }
}

// The refusal's number, in decimal.
impl fmt::Display for Refusal {
    ghost output = { λ refusal. Some (decimal (number_of refusal)) };

    fn fmt<W: fmt::Write>(&self, f: &mut fmt::Formatter<W>) -> fmt::Result {
        fmt::Display::fmt(&self.number(), f)
    }
}

impl std::error::Error for Refusal {}

// Refuses a point unless it is accepted.
pub fn accept(lat: f64, lon: f64) -> Result<(), Refusal>
    ensures { result ≡ point_answer lat lon }
{
    if accepted(lat, lon) {
        Ok(())
    } else {
        Err(Refusal::Point)
    }
}
