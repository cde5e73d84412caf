// The options of the command line, after those of GeographicLib's Planimeter.
ghost use Rattle.std.specs.Prelude.{◌≡◌};
ghost use Rattle.planimeter.specs.Options.{usual, switched, drawn_on, ReadsFlag};

use area::Winding;
use ellipsoid::shape::{WGS84_A, WGS84_F};
use std::str::FromStr;
use thiserror::Error;

// What the outline is drawn on.
#[derive(Clone, Copy, PartialEq, Debug)]
pub enum Ground {
    // an ellipsoid by its equatorial radius and its flattening
    Ellipsoid(f64, f64),
    // a plate by its scale
    Plate(f64),
}

#[derive(Clone, Copy, PartialEq, Eq, Hash, Debug)]
pub enum Flag {
    // -r: the other sense of traversal counts as positive
    Reverse,
    // -s: the area without a sign, or again with one
    Sign,
    // -k: the next word is the scale of a plate
    Scale,
    // -e: the next two words are the radius and the flattening of an ellipsoid
    Shape,
}

// A word that is no flag; it tells how this program is called.
#[derive(Clone, Copy, PartialEq, Eq, Hash, Debug, Error)]
#[error("usage: planimeter [-r] [-s] [-e A F] [-k K] < outline")]
pub struct NotAFlag;

impl FromStr for Flag {
    type Err = NotAFlag;

    ghost from_str_gives = { ReadsFlag };

    fn from_str(word: &str) -> Result<Flag, NotAFlag> {
        match word {
            "-r" => Ok(Flag::Reverse),
            "-s" => Ok(Flag::Sign),
            "-k" => Ok(Flag::Scale),
            "-e" => Ok(Flag::Shape),
            _ => Err(NotAFlag),
        }
    }
}

// Winding and sign are apart, since a flag of its own switches each.
#[derive(Clone, Copy, PartialEq, Debug)]
pub struct Options {
    pub surface: Ground,
    pub winding: Winding,
    pub signed: bool,
}

// The WGS84 ellipsoid, counter-clockwise positive, with a sign.
impl Default for Options {
    ghost is_default = { λ options. options ≡ usual };

    fn default() -> Options {
        Options {
            surface: Ground::Ellipsoid(WGS84_A, WGS84_F),
            winding: Winding::CounterClockwise,
            signed: true,
        }
    }
}

impl Options {
    // With one flag more; a flag that waits for its words switches nothing.
    pub fn switched(self, flag: Flag) -> Options
        ensures { result ≡ switched self flag }
    {
        match flag {
            Flag::Reverse => Options {
                winding: self.winding.reversed(),
                ..self
            },
            Flag::Sign => Options {
                signed: !self.signed,
                ..self
            },
            Flag::Scale | Flag::Shape => self,
        }
    }

    pub fn drawn_on(self, surface: Ground) -> Options
        ensures { result ≡ drawn_on self surface }
    {
        Options { surface, ..self }
    }
}
