// The functions of the series set, by the names of their lists.
ghost use Rattle.replay.specs.Names.{Named};
ghost use Rattle.vectors_series.specs.Functions.{answers_of_series, name_of};

use functions::{FunctionSet, SeriesSet};
use replay::{Answers, NoSuchFunction};
use std::str::FromStr;

#[derive(Clone, Copy, PartialEq, Eq, Debug, Hash)]
pub enum Function {
    Sin,
    Cos,
    Atan2,
    Atan,
    Atanh,
    Hypot,
    Cbrt,
}

// The function whose list has this name.
impl FromStr for Function {
    type Err = NoSuchFunction;

    ghost from_str_gives = { λ name r. Named name_of name r };

    fn from_str(name: &str) -> Result<Function, NoSuchFunction> {
        match name {
            "sin" => Ok(Function::Sin),
            "cos" => Ok(Function::Cos),
            "atan2" => Ok(Function::Atan2),
            "atan" => Ok(Function::Atan),
            "atanh" => Ok(Function::Atanh),
            "hypot" => Ok(Function::Hypot),
            "cbrt" => Ok(Function::Cbrt),
            _ => Err(NoSuchFunction),
        }
    }
}

// A function of one argument takes the first, and the second answer is +0. A match and no table of
// functions: the arms show what each name answers, and a pointer would not.
impl Answers for Function {
    ghost answers_of = { answers_of_series };

    fn answers(&self, x: f64, y: f64) -> (f64, f64) {
        let answer = match self {
            Function::Sin => SeriesSet.sin(x),
            Function::Cos => SeriesSet.cos(x),
            Function::Atan2 => SeriesSet.atan2(x, y),
            Function::Atan => SeriesSet.atan(x),
            Function::Atanh => SeriesSet.atanh(x),
            Function::Hypot => SeriesSet.hypot(x, y),
            Function::Cbrt => SeriesSet.cbrt(x),
        };
        (answer, 0.0)
    }
}
