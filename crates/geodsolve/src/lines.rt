// What a line of the input says.
ghost use Rattle.geodsolve.specs.Lines.{Says};

use script::row;
use std::error::Error;
use std::fmt;

// Two points, in degrees. `vectors_inverse` has these four names too: a crate for both would hold
// nothing else.
#[derive(Clone, Copy, PartialEq, Debug)]
pub struct Ends {
    pub lat1: f64,
    pub lon1: f64,
    pub lat2: f64,
    pub lon2: f64,
}

// A line that is not four decimal numbers.
#[derive(Clone, Copy, PartialEq, Eq, Hash, Debug)]
pub struct NotTwoPoints;

impl fmt::Display for NotTwoPoints {
    ghost use Rattle.std.specs.Prelude.{Some, codes};

    ghost output = { λ _. Some (codes "not two points") };

    fn fmt<W: fmt::Write>(&self, f: &mut fmt::Formatter<W>) -> fmt::Result {
        write!(f, "not two points")
    }
}

impl Error for NotTwoPoints {}

// The two points of a line, if it is not blank and does not begin with #.
pub fn read(line: &str) -> Result<Option<Ends>, NotTwoPoints>
    ensures { Says line.now result }
{
    let Some(numbers) = row::<4, NotTwoPoints>(line, NotTwoPoints)? else {
        return Ok(None);
    };
    let [lat1, lon1, lat2, lon2] = numbers;
    Ok(Some(Ends {
        lat1,
        lon1,
        lat2,
        lon2,
    }))
}
