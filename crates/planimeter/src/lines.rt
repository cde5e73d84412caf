// What a line of the input says.
ghost use Rattle.planimeter.specs.Lines.{Says};

use polygon::Point;
use script::row;
use std::error::Error;
use std::fmt;

// A line that is not two decimal numbers.
#[derive(Clone, Copy, PartialEq, Eq, Hash, Debug)]
pub struct NotAPoint;

impl fmt::Display for NotAPoint {
    ghost use Rattle.std.specs.Prelude.{Some, codes};

    ghost output = { λ _. Some (codes "not a point") };

    fn fmt<W: fmt::Write>(&self, f: &mut fmt::Formatter<W>) -> fmt::Result {
        write!(f, "not a point")
    }
}

impl Error for NotAPoint {}

// The latitude and the longitude of a line, if it is not blank and does not begin with #.
pub fn read(line: &str) -> Result<Option<Point>, NotAPoint>
    ensures { Says line.now result }
{
    let Some(numbers) = row::<2, NotAPoint>(line, NotAPoint)? else {
        return Ok(None);
    };
    let [lat, lon] = numbers;
    Ok(Some(Point { lat, lon }))
}
