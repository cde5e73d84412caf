// The functions of geomath over the series set, by the names of their lists.
ghost use Rattle.std.specs.Prelude.{◌≡◌, ◌<◌};
ghost use Rattle.replay.specs.Names.{Named};
ghost use Rattle.vectors_geomath.specs.Functions.{answers_of_geomath, pair_of, sums_of, name_of};

use functions::SeriesSet;
use replay::{Answers, NoSuchFunction};
use series::{_A1m1f, _A2m1f, _C1f, _C2f, astroid, atan2d, eatanhe, norm, sin_cos_series, sincosd};
use std::str::FromStr;

// The coefficients of an expansion are answered two at a time.
#[derive(Clone, Copy, PartialEq, Eq, Debug, Hash)]
pub enum Function {
    Sincosd,
    Atan2d,
    Norm,
    Eatanhe,
    Astroid,
    SinCosSeries,
    A1m1f,
    A2m1f,
    C1f12,
    C1f34,
    C1f56,
    C2f12,
    C2f34,
    C2f56,
}

// The function whose list has this name.
impl FromStr for Function {
    type Err = NoSuchFunction;

    ghost from_str_gives = { λ name r. Named name_of name r };

    fn from_str(name: &str) -> Result<Function, NoSuchFunction> {
        match name {
            "sincosd" => Ok(Function::Sincosd),
            "atan2d" => Ok(Function::Atan2d),
            "norm" => Ok(Function::Norm),
            "eatanhe" => Ok(Function::Eatanhe),
            "astroid" => Ok(Function::Astroid),
            "sin_cos_series" => Ok(Function::SinCosSeries),
            "A1m1f" => Ok(Function::A1m1f),
            "A2m1f" => Ok(Function::A2m1f),
            "C1f12" => Ok(Function::C1f12),
            "C1f34" => Ok(Function::C1f34),
            "C1f56" => Ok(Function::C1f56),
            "C2f12" => Ok(Function::C2f12),
            "C2f34" => Ok(Function::C2f34),
            "C2f56" => Ok(Function::C2f56),
            _ => Err(NoSuchFunction),
        }
    }
}

// Both sums at an angle in degrees, over the coefficients C1 at eps.
#[tactic(auto, unfolding(series::specs::Expansions::C1f, series::specs::Expansions::coefficients))]
fn sums_of(eps: f64, degrees: f64) -> (f64, f64)
    ensures { result ≡ sums_of eps degrees }
{
    let c = _C1f(eps);
    let (sinx, cosx) = sincosd(&SeriesSet, degrees);
    (
        sin_cos_series(true, sinx, cosx, &c),
        sin_cos_series(false, sinx, cosx, &c[1..]),
    )
}

// A function of one argument takes the first, and a lone answer stands before +0. A match and no table
// of functions: the arms show what each name answers, and a pointer would not.
impl Answers for Function {
    ghost answers_of = { answers_of_geomath };

    fn answers(&self, x: f64, y: f64) -> (f64, f64) {
        match self {
            Function::Sincosd => sincosd(&SeriesSet, x),
            Function::Atan2d => (atan2d(&SeriesSet, x, y), 0.0),
            Function::Norm => norm(&SeriesSet, x, y),
            Function::Eatanhe => (eatanhe(&SeriesSet, x, y), 0.0),
            Function::Astroid => (astroid(&SeriesSet, x, y), 0.0),
            Function::SinCosSeries => sums_of(x, y),
            Function::A1m1f => (_A1m1f(x), 0.0),
            Function::A2m1f => (_A2m1f(x), 0.0),
            Function::C1f12 => pair(&_C1f(x), 1),
            Function::C1f34 => pair(&_C1f(x), 3),
            Function::C1f56 => pair(&_C1f(x), 5),
            Function::C2f12 => pair(&_C2f(x), 1),
            Function::C2f34 => pair(&_C2f(x), 3),
            Function::C2f56 => pair(&_C2f(x), 5),
        }
    }
}

// Two neighbouring coefficients.
fn pair(c: &[f64; 7], l: usize) -> (f64, f64)
    requires { l < 6 }
    ensures { result ≡ pair_of c.now l }
{
    (c[l], c[l + 1])
}
