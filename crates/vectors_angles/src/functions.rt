// The functions that lists give answers of.
ghost use Rattle.replay.specs.Names.{Named};
ghost use Rattle.vectors_angles.specs.Functions.{answers_of_angles, name_of};

use floats::{copysign, larger, remquo, smaller, sqrt, sum};
use geomath::{ang_diff, ang_normalize, ang_round, lat_fix, remainder};
use polygon::transit;
use replay::{Answers, NoSuchFunction};
use std::num::nearest_i64_to_f64;
use std::str::FromStr;

#[derive(Clone, Copy, PartialEq, Eq, Debug, Hash)]
pub enum Function {
    Sum,
    AngRound,
    Remainder,
    AngNormalize,
    LatFix,
    AngDiff,
    Transit,
    Remquo,
    Larger,
    Smaller,
    CopySign,
    Root,
}

// The function whose list has this name.
impl FromStr for Function {
    type Err = NoSuchFunction;

    ghost from_str_gives = { λ name r. Named name_of name r };

    fn from_str(name: &str) -> Result<Function, NoSuchFunction> {
        match name {
            "sum" => Ok(Function::Sum),
            "ang_round" => Ok(Function::AngRound),
            "remainder" => Ok(Function::Remainder),
            "ang_normalize" => Ok(Function::AngNormalize),
            "lat_fix" => Ok(Function::LatFix),
            "ang_diff" => Ok(Function::AngDiff),
            "transit" => Ok(Function::Transit),
            "remquo" => Ok(Function::Remquo),
            "larger" => Ok(Function::Larger),
            "smaller" => Ok(Function::Smaller),
            "copysign" => Ok(Function::CopySign),
            "sqrt" => Ok(Function::Root),
            _ => Err(NoSuchFunction),
        }
    }
}

// A function of one argument takes the first, and a lone answer stands before +0. A match and no table
// of functions: the arms show what each name answers, and a pointer would not.
impl Answers for Function {
    ghost answers_of = { answers_of_angles };

    fn answers(&self, x: f64, y: f64) -> (f64, f64) {
        match self {
            Function::Sum => sum(x, y),
            Function::AngRound => (ang_round(x), 0.0),
            Function::Remainder => (remainder(x, y), 0.0),
            Function::AngNormalize => (ang_normalize(x), 0.0),
            Function::LatFix => (lat_fix(x), 0.0),
            Function::AngDiff => ang_diff(x, y),
            Function::Transit => (nearest_i64_to_f64(transit(x, y)), 0.0),
            Function::Remquo => {
                let (rest, quotient) = remquo(x);
                (rest, f64::from(quotient))
            }
            Function::Larger => (larger(x, y), 0.0),
            Function::Smaller => (smaller(x, y), 0.0),
            Function::CopySign => (copysign(x, y), 0.0),
            Function::Root => (sqrt(x), 0.0),
        }
    }
}
