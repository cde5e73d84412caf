// Newton's method for the azimuth at the first point, kept within a bracket and replaced by
// bisection where it fails.
ghost use Rattle.std.specs.Prelude.{◌≡◌, ◌≤◌, ◌<◌};
ghost use Rattle.azimuth.specs.Problems.{of_problem};
ghost use Rattle.azimuth.specs.Newton as Definitions;

use crate::lambda::Lambda;
use crate::problem::Problem;
use ellipsoid::arcs::Azimuth;
use ellipsoid::shape::{TINY, TOL0, TOLB};
use functions::FunctionSet;
use std::f64::consts::PI;
use std::ops::ControlFlow;

const MAXIT1: u8 = 20;

const MAXIT2: u8 = 83;

// The azimuths between which the wanted one lies.
#[derive(Clone, Copy, Debug, PartialEq)]
pub struct Bracket {
    pub alp1a: Azimuth,
    pub alp1b: Azimuth,
}

// A guess and its bracket; tripn after a small Newton step, tripb where bisection has come to its
// end, as the crate names them; and the evaluation before it.
#[derive(Clone, Copy, Debug, PartialEq)]
pub struct Search {
    pub alp1: Azimuth,
    pub bracket: Bracket,
    pub tripn: bool,
    pub tripb: bool,
    pub last: Lambda,
}

// The azimuth, the last evaluation, and how many were made.
#[derive(Clone, Copy, Debug, PartialEq)]
pub struct Found {
    pub alp1: Azimuth,
    pub last: Lambda,
    pub evaluations: u8,
}

fn cotangent(z: Azimuth) -> f64
    ensures { result ≡ Definitions.cotangent z }
{
    z.calp / z.salp
}

impl Bracket {
    // The bracket after the i-th evaluation, of the error v at the azimuth z.
    #[tactic(auto, unfolding(crate::specs::Newton::narrowed))]
    fn narrowed(self, i: u8, v: f64, z: Azimuth) -> Bracket
        ensures { result ≡ Definitions.narrowed i v z self }
    {
        let Bracket { alp1a, alp1b } = self;
        if v > 0.0 && (i > MAXIT1 || cotangent(z) > cotangent(alp1b)) {
            Bracket { alp1a, alp1b: z }
        } else if v < 0.0 && (i > MAXIT1 || cotangent(z) < cotangent(alp1a)) {
            Bracket { alp1a: z, alp1b }
        } else {
            self
        }
    }

    #[tactic(auto, unfolding(crate::specs::Newton::middle))]
    fn middle<F: FunctionSet>(&self, set: &F) -> Azimuth
        ensures { result ≡ Definitions.middle (F.funcs set.now) self.now }
    {
        let sum = Azimuth {
            salp: (self.alp1a.salp + self.alp1b.salp) / 2.0,
            calp: (self.alp1a.calp + self.alp1b.calp) / 2.0,
        };
        sum.unit(set)
    }

    // Whether an azimuth is not told from a side of the bracket any more.
    #[tactic(auto, unfolding(crate::specs::Newton::closed))]
    fn is_closed(&self, z: Azimuth) -> bool
        ensures { result ≡ Definitions.closed self.now z }
    {
        (self.alp1a.salp - z.salp).abs() + (self.alp1a.calp - z.calp) < TOLB
            || (z.salp - self.alp1b.salp).abs() + (z.calp - self.alp1b.calp) < TOLB
    }

    // The search goes on with the middle.
    #[tactic(auto, unfolding(crate::specs::Newton::bisected))]
    fn bisected<F: FunctionSet>(self, set: &F, last: Lambda) -> Search
        ensures { result ≡ Definitions.bisected (F.funcs set.now) self last }
    {
        let alp1 = self.middle(set);
        Search {
            alp1,
            bracket: self,
            tripn: false,
            tripb: self.is_closed(alp1),
            last,
        }
    }
}

impl Search {
    // The first guess, with a bracket from due north to due south and no evaluation yet: what stands in
    // its place is never answered, since there is always a first one.
    #[tactic(auto, unfolding(crate::specs::Newton::begun))]
    fn new(alp1: Azimuth) -> Search
        ensures { result ≡ Definitions.begun alp1 }
    {
        Search {
            alp1,
            bracket: Bracket {
                alp1a: Azimuth {
                    salp: TINY,
                    calp: 1.0,
                },
                alp1b: Azimuth {
                    salp: TINY,
                    calp: -1.0,
                },
            },
            tripn: false,
            tripb: false,
            last: Lambda::default(),
        }
    }

    // The crate's `!(|v| >= ..)` by cases: a NaN ends the search too.
    #[tactic(auto, unfolding(crate::specs::Newton::converged))]
    fn has_converged(&self, v: f64) -> bool
        ensures { result ≡ Definitions.converged self.now v }
    {
        let least = if self.tripn { 8.0 } else { 1.0 };
        self.tripb || v.abs() < least * TOL0 || v.abs().is_nan()
    }

    // The next guess by Newton's step where the derivative is positive and the step leads to the
    // east, else by bisection.
    #[tactic(auto, unfolding(crate::specs::Newton::next, crate::specs::Newton::steps, crate::specs::Newton::stepped))]
    fn step_on<F: FunctionSet>(&self, set: &F, i: u8, last: Lambda, bracket: Bracket) -> Search
        ensures { result ≡ Definitions.next (F.funcs set.now) i self.now last bracket }
    {
        if i < MAXIT1 && last.dlam12 > 0.0 {
            let dalp1 = -last.lam12 / last.dlam12;
            let z = self.alp1.turned_by(set, dalp1);
            if z.salp > 0.0 && dalp1.abs() < PI {
                return Search {
                    alp1: z.unit(set),
                    bracket,
                    tripn: last.lam12.abs() <= 16.0 * TOL0,
                    tripb: self.tripb,
                    last,
                };
            }
        }
        bracket.bisected(set, last)
    }

    // What is done with the i-th evaluation: the search ends there, or goes on with another guess.
    #[tactic(auto, unfolding(crate::specs::Newton::judged))]
    fn judge<F: FunctionSet>(&self, set: &F, i: u8, last: Lambda) -> ControlFlow<Found, Search>
        requires { i < MAXIT2 }
        ensures { result ≡ Definitions.judged (F.funcs set.now) i self.now last }
    {
        if self.has_converged(last.lam12) {
            return ControlFlow::Break(Found {
                alp1: self.alp1,
                last,
                evaluations: i + 1,
            });
        }
        let bracket = self.bracket.narrowed(i, last.lam12, self.alp1);
        ControlFlow::Continue(self.step_on(set, i, last, bracket))
    }
}

impl<F: FunctionSet> Problem<'_, F> {
    #[tactic(auto, unfolding(crate::specs::Newton::one_turn))]
    fn one_turn(&self, i: u8, s: &Search) -> ControlFlow<Found, Search>
        requires { i < MAXIT2 }
        ensures { result ≡ of_problem F.funcs self.now Definitions.one_turn i s.now }
    {
        let last = self._Lambda12(s.alp1, i < MAXIT1);
        s.judge(self.set, i, last)
    }

    // The azimuth at which the longitude is the wanted one. When the turns run out, the next guess
    // goes with the last evaluation. Counted: how many evaluations were made is an answer.
    pub fn solve_azimuth(&self, start: Azimuth) -> Found
        ensures value { result ≡ of_problem F.funcs self.now Definitions.solved_azimuth start }
        ensures few { result.evaluations ≤ 83 }
    {
        let mut s = Search::new(start);
        for i in 0..MAXIT2 {
            match self.one_turn(i, &s) {
                ControlFlow::Break(found) => return found,
                ControlFlow::Continue(t) => s = t,
            }
        }
        Found {
            alp1: s.alp1,
            last: s.last,
            evaluations: MAXIT2,
        }
    }
}
