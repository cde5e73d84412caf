// Sine and cosine by their series: the angle is brought near zero by quarter turns.
ghost use Rattle.std.specs.Prelude.{◌≡◌};
ghost use Rattle.functions.specs.Circle.{within_turns, quarter_of, after, reduced_of, sine_near, cosine_near, sine_in, cosine_in, sine_of, cosine_of};

use floats::{polyval, rem};
use std::f64::consts::PI;
use std::num::saturating_f64_to_i64;

// π/2 in two parts: n times the first is exact for the n that occur here.
const LEADING: f64 = 1.57079632673412561417e0;

const TRAILING: f64 = 6.07710050650619224932e-11;

// (-1)^k / (2k+1)!, k from 8 down to 0.
const SINE_TERMS: [f64; 9] = [
    1.0 / 355687428096000.0,
    -1.0 / 1307674368000.0,
    1.0 / 6227020800.0,
    -1.0 / 39916800.0,
    1.0 / 362880.0,
    -1.0 / 5040.0,
    1.0 / 120.0,
    -1.0 / 6.0,
    1.0,
];

// (-1)^k / (2k)!, k from 9 down to 0.
const COSINE_TERMS: [f64; 10] = [
    -1.0 / 6402373705728000.0,
    1.0 / 20922789888000.0,
    -1.0 / 87178291200.0,
    1.0 / 479001600.0,
    -1.0 / 3628800.0,
    1.0 / 40320.0,
    -1.0 / 720.0,
    1.0 / 24.0,
    -1.0 / 2.0,
    1.0,
];

// The quarter of a turn that an angle was brought from: First where no quarter turn was taken off.
#[derive(Clone, Copy, PartialEq, Eq, Hash, Debug)]
pub enum Quarter {
    First,
    Second,
    Third,
    Fourth,
}

// The quarter in which a number of quarter turns ends.
impl From<f64> for Quarter {
    ghost from_gives = { λ n quarter. quarter ≡ quarter_of n };

    fn from(n: f64) -> Quarter {
        match saturating_f64_to_i64(n).rem_euclid(4) {
            0 => Quarter::First,
            1 => Quarter::Second,
            2 => Quarter::Third,
            _ => Quarter::Fourth,
        }
    }
}

impl Quarter {
    // The quarter after this one.
    fn next(self) -> Quarter
        ensures { result ≡ after self }
    {
        match self {
            Quarter::First => Quarter::Second,
            Quarter::Second => Quarter::Third,
            Quarter::Third => Quarter::Fourth,
            Quarter::Fourth => Quarter::First,
        }
    }
}

// An angle within an eighth turn of zero, and the quarter that it was brought from.
#[derive(Clone, Copy, PartialEq, Debug)]
pub struct Reduced {
    rest: f64,
    quarter: Quarter,
}

impl Reduced {
    // The angle x less the nearest number of quarter turns.
    fn of(x: f64) -> Reduced
        ensures { result ≡ reduced_of x }
    {
        if x.abs() <= PI / 4.0 {
            return Reduced {
                rest: x,
                quarter: Quarter::First,
            };
        }
        let n = (x / (PI / 2.0)).round_ties_even();
        let rest = (x - n * LEADING) - n * TRAILING;
        let quarter = Quarter::from(n);
        Reduced { rest, quarter }
    }

    fn sine(self) -> f64
        ensures { result ≡ sine_in self.quarter self.rest }
    {
        match self.quarter {
            Quarter::First => sine_near(self.rest),
            Quarter::Second => cosine_near(self.rest),
            Quarter::Third => -sine_near(self.rest),
            Quarter::Fourth => -cosine_near(self.rest),
        }
    }

    // The sine of the angle a quarter turn further.
    fn cosine(self) -> f64
        ensures { result ≡ cosine_in self.quarter self.rest }
    {
        let quarter = self.quarter.next();
        Reduced { quarter, ..self }.sine()
    }
}

// Beyond 1024, the remainder by a full turn.
fn within_turns(x: f64) -> f64
    ensures { result ≡ within_turns x }
{
    if x.abs() > 1024.0 {
        rem(x, 2.0 * PI)
    } else {
        x
    }
}

fn sine_near(r: f64) -> f64
    ensures { result ≡ sine_near r }
{
    r * polyval(&SINE_TERMS, r * r)
}

fn cosine_near(r: f64) -> f64
    ensures { result ≡ cosine_near r }
{
    polyval(&COSINE_TERMS, r * r)
}

pub fn sine(x: f64) -> f64
    ensures { result ≡ sine_of x }
{
    if !x.is_finite() {
        return f64::NAN;
    }
    Reduced::of(within_turns(x)).sine()
}

pub fn cosine(x: f64) -> f64
    ensures { result ≡ cosine_of x }
{
    if !x.is_finite() {
        return f64::NAN;
    }
    Reduced::of(within_turns(x)).cosine()
}
