// The lists by name, and what each of them is about.
ghost use Rattle.std.specs.Prelude.{◌≡◌, Some, codes};
ghost use Rattle.replay.specs.Names.{Named};
ghost use Rattle.vectors_inverse.specs.Lists.{name_of, outlines, subject_of};

use crate::outlines::Outlines;
use area::Winding;
use ellipsoid::shape::WGS84_F;
use geodesic::capability::{ALL, DISTANCE, EMPTY, POLYGONAREA_MASK};
use std::error::Error;
use std::fmt;
use std::str::FromStr;

#[derive(Clone, Copy, PartialEq, Eq, Debug, Hash)]
pub enum List {
    // all figures on an ellipsoid
    Wgs84,
    Sphere,
    Oblate,
    Prolate,
    Moderate,
    // fewer figures on WGS84
    Nothing,
    Distance,
    Outline,
    // polygons on WGS84
    Signed,
    Unsigned,
    SignedClockwise,
    UnsignedClockwise,
    // answers of GeographicLib on WGS84
    Geodsolve,
}

#[derive(Clone, Copy, PartialEq, Debug)]
pub enum Subject {
    // geodesics on the ellipsoid of the flattening f, under a mask
    Pairs(f64, u64),
    // polygons on WGS84
    Outlines(Outlines),
    // geodesics whose figures are rounded
    Rounded,
}

// A name that no list has; `NoSuchFunction` of `replay` is told in other words.
#[derive(Clone, Copy, PartialEq, Eq, Debug, Hash)]
pub struct NoSuchList;

impl fmt::Display for NoSuchList {
    ghost output = { λ _. Some (codes "no such list") };

    fn fmt<W: fmt::Write>(&self, f: &mut fmt::Formatter<W>) -> fmt::Result {
        write!(f, "no such list")
    }
}

impl Error for NoSuchList {}

// The list of this name.
impl FromStr for List {
    type Err = NoSuchList;

    ghost from_str_gives = { λ name r. Named name_of name r };

    fn from_str(name: &str) -> Result<List, NoSuchList> {
        match name {
            "wgs84" => Ok(List::Wgs84),
            "sphere" => Ok(List::Sphere),
            "oblate" => Ok(List::Oblate),
            "prolate" => Ok(List::Prolate),
            "moderate" => Ok(List::Moderate),
            "nothing" => Ok(List::Nothing),
            "distance" => Ok(List::Distance),
            "outline" => Ok(List::Outline),
            "signed" => Ok(List::Signed),
            "unsigned" => Ok(List::Unsigned),
            "signed_clockwise" => Ok(List::SignedClockwise),
            "unsigned_clockwise" => Ok(List::UnsignedClockwise),
            "geodsolve" => Ok(List::Geodsolve),
            _ => Err(NoSuchList),
        }
    }
}

impl List {
    // What the list is about.
    pub fn subject(&self) -> Subject
        ensures { result ≡ subject_of self.now }
    {
        match self {
            List::Wgs84 => Subject::Pairs(WGS84_F, ALL),
            List::Sphere => Subject::Pairs(0.0, ALL),
            List::Oblate => Subject::Pairs(0.02, ALL),
            List::Prolate => Subject::Pairs(-0.02, ALL),
            List::Moderate => Subject::Pairs(0.006666666666666667, ALL),
            List::Nothing => Subject::Pairs(WGS84_F, EMPTY),
            List::Distance => Subject::Pairs(WGS84_F, DISTANCE),
            List::Outline => Subject::Pairs(WGS84_F, POLYGONAREA_MASK),
            List::Signed => outlines(Winding::CounterClockwise, true),
            List::Unsigned => outlines(Winding::CounterClockwise, false),
            List::SignedClockwise => outlines(Winding::Clockwise, true),
            List::UnsignedClockwise => outlines(Winding::Clockwise, false),
            List::Geodsolve => Subject::Rounded,
        }
    }
}

// What a list of polygons is about.
fn outlines(winding: Winding, sign: bool) -> Subject
    ensures { result ≡ outlines winding sign }
{
    Subject::Outlines(Outlines { winding, sign })
}
