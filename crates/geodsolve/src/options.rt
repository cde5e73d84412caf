// The options of the command line, after those of GeographicLib's GeodSolve.
ghost use Rattle.std.specs.Prelude.{◌≡◌};
ghost use Rattle.geodsolve.specs.Options.{usual, full, precise, ReadsFlag};

use std::str::FromStr;
use thiserror::Error;

#[derive(Clone, Copy, PartialEq, Eq, Hash, Debug)]
pub enum Flag {
    // -f: all figures, with the points
    Full,
    // -p: the next word is the precision
    Precision,
}

// A word that is no flag; it tells how this program is called.
#[derive(Clone, Copy, PartialEq, Eq, Hash, Debug, Error)]
#[error("usage: geodsolve [-f] [-p DIGITS] < points")]
pub struct NotAFlag;

impl FromStr for Flag {
    type Err = NotAFlag;

    ghost from_str_gives = { ReadsFlag };

    fn from_str(word: &str) -> Result<Flag, NotAFlag> {
        match word {
            "-f" => Ok(Flag::Full),
            "-p" => Ok(Flag::Precision),
            _ => Err(NotAFlag),
        }
    }
}

#[derive(Clone, Copy, PartialEq, Eq, Hash, Debug)]
pub struct Options {
    pub full: bool,
    // the decimals of a length in metres
    pub digits: usize,
}

// Bearings and distance, to the millimetre.
impl Default for Options {
    ghost is_default = { λ options. options ≡ usual };

    fn default() -> Options {
        Options {
            full: false,
            digits: 3,
        }
    }
}

impl Options {
    pub fn full(self) -> Options
        ensures { result ≡ full self }
    {
        Options { full: true, ..self }
    }

    // With this precision, ten decimals at most.
    pub fn precise(self, digits: usize) -> Options
        ensures { result ≡ precise self digits }
    {
        Options {
            digits: digits.min(10),
            ..self
        }
    }
}
