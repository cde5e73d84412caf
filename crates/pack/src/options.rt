// The options of the command line, and the header that they make.
ghost use Rattle.std.specs.Prelude.{◌≡◌};
ghost use Rattle.pack.specs.Options.{usual, switched, Named, header_from};

use area::Winding;
use packed::{Header, SurfaceKind};
use std::str::FromStr;
use thiserror::Error;

#[derive(Clone, Copy, PartialEq, Eq, Debug, Hash)]
pub enum Flag {
    // -p: the plate of one unit to a degree
    Plate,
    // -r: the other sense of traversal counts as positive
    Reverse,
    // -u: the area without a sign, or again with one
    Unsigned,
}

// A word that names no flag of this program.
#[derive(Clone, Copy, PartialEq, Eq, Debug, Hash, Error)]
#[error("usage: pack [-p] [-r] [-u] < calls > sheet")]
pub struct UnknownFlag;

impl FromStr for Flag {
    type Err = UnknownFlag;

    ghost from_str_gives = { Named };

    fn from_str(word: &str) -> Result<Flag, UnknownFlag> {
        match word {
            "-p" => Ok(Flag::Plate),
            "-r" => Ok(Flag::Reverse),
            "-u" => Ok(Flag::Unsigned),
            _ => Err(UnknownFlag),
        }
    }
}

// What the flags switch, each one of the three.
#[derive(Clone, Copy, PartialEq, Eq, Debug, Hash)]
pub struct Options {
    pub surface: SurfaceKind,
    pub winding: Winding,
    pub signed: bool,
}

// The WGS84 ellipsoid, counter-clockwise positive, with a sign.
impl Default for Options {
    ghost is_default = { λ options. options ≡ usual };

    fn default() -> Options {
        Options {
            surface: SurfaceKind::Wgs84,
            winding: Winding::CounterClockwise,
            signed: true,
        }
    }
}

impl Options {
    // With one flag more.
    pub fn switched(self, flag: Flag) -> Options
        ensures { result ≡ switched self flag }
    {
        match flag {
            Flag::Plate => Options {
                surface: SurfaceKind::Plate,
                ..self
            },
            Flag::Reverse => Options {
                winding: self.winding.reversed(),
                ..self
            },
            Flag::Unsigned => Options {
                signed: !self.signed,
                ..self
            },
        }
    }

    // The header of a sheet with so many edits; their number has 16 bits.
    pub fn header(self, edits: usize) -> Option<Header>
        ensures { result ≡ header_from self edits }
    {
        let edits = u16::try_from(edits).ok()?;
        Some(Header {
            winding: self.winding,
            signed: self.signed,
            surface: self.surface,
            edits,
        })
    }
}
