// What is told of a line.
ghost use Rattle.std.specs.Prelude.{◌≡◌};
ghost use Rattle.geodsolve.specs.Tellings.{telling_of};

use crate::lines::{Ends, NotTwoPoints};
use functions::SeriesSet;
use geodesic::capability::ALL;
use geodesic::{Bearings, Geodesic, Inverse};
use script::LineFault;

// Two points and the geodesic between them.
#[derive(Clone, Copy, PartialEq, Debug)]
pub struct Solved {
    pub ends: Ends,
    pub figures: Inverse<Bearings>,
}

// The geodesic between the two points of a line, with all figures.
pub fn tell(
    geodesic: &Geodesic<SeriesSet>,
    line: Result<Option<Ends>, NotTwoPoints>,
) -> Result<Option<Solved>, LineFault<NotTwoPoints>>
    ensures { result ≡ telling_of geodesic.now.shape line }
{
    let Some(ends) = line.map_err(LineFault::Unreadable)? else {
        return Ok(None);
    };
    let Ends {
        lat1,
        lon1,
        lat2,
        lon2,
    } = ends;
    let figures = geodesic.inverse_azi(lat1, lon1, lat2, lon2, ALL)?;
    Ok(Some(Solved { ends, figures }))
}
