// What an outline is drawn on, by the number that C knows it by.
ghost use Rattle.std.specs.Prelude.{◌≡◌, Some, None, MatchResult};
ghost use Rattle.earth.specs.Grounds.{edges_on, whole_on};
ghost use Rattle.outline_c.specs.Grounds.{edges_of, whole_of, ground_fault, number_of, Numbers};

use crate::faults::Fault;
use earth::Ground;
use surface::Plate;

// The surfaces by their numbers for C; those in a packed sheet are the format's, and stand apart.
#[derive(Clone, Copy, PartialEq, Eq, Hash, Debug)]
pub enum SurfaceNumber {
    Wgs84 = 0,
    Plate = 1,
}

impl TryFrom<u8> for SurfaceNumber {
    type Error = Fault;

    ghost try_from_gives = { Numbers };

    fn try_from(number: u8) -> Result<SurfaceNumber, Fault> {
        match number {
            0 => Ok(SurfaceNumber::Wgs84),
            1 => Ok(SurfaceNumber::Plate),
            _ => Err(Fault::Unknown),
        }
    }
}

// The ground of a surface and, for a plate, its scale.
pub fn ground_of(surface: SurfaceNumber, scale: f64) -> Result<Ground, Fault>
    ensures { MatchResult result (λ g. (ground_fault (number_of surface) scale ≡ None) × (edges_on g ≡ edges_of (number_of surface) scale) × (whole_on g ≡ whole_of (number_of surface) scale)) (λ e. ground_fault (number_of surface) scale ≡ Some e) }
{
    match surface {
        SurfaceNumber::Wgs84 => Ok(Ground::Earth),
        SurfaceNumber::Plate => Ok(Ground::Sheet(Plate::new(scale)?)),
    }
}
