// The geodesic between two points in canonical form.
ghost use Rattle.std.specs.Prelude.{◌≡◌};
ghost use Rattle.azimuth.specs.Problems.{of_problem};
ghost use Rattle.inverse.specs.Paths as Definitions;
ghost use Rattle.inverse.specs.Tasks.{of_task};

use crate::task::Task;
use crate::wanted::wanted_or_nan;
use azimuth::newton::Found;
use azimuth::problem::Problem;
use azimuth::start::Start;
use ellipsoid::arcs::{Arc, Azimuth};
use ellipsoid::capability::{DISTANCE, GEODESICSCALE, REDUCEDLENGTH, wanted};
use ellipsoid::lengths::Lengths;
use ellipsoid::shape::TINY;
use functions::FunctionSet;
use geomath::sq;

// How a path was found, and what is known of its ω12: ω12 itself where the longitude equation was not
// evaluated, λ12 - ω12 where it was, and how many times.
#[derive(Clone, Copy, Debug, PartialEq)]
pub enum Way {
    Meridian,
    Direct { omg12: f64 },
    Newton { domg12: f64, evaluations: u8 },
}

impl Way {
    // How many times the longitude equation was evaluated.
    pub fn evaluations(self) -> u8
        ensures { result ≡ Definitions.evaluations_of self }
    {
        match self {
            Way::Meridian | Way::Direct { .. } => 0,
            Way::Newton { evaluations, .. } => evaluations,
        }
    }
}

// The distance, the reduced length and the arc length in degrees, the scales, the azimuths at both
// ends, and the way.
#[derive(Clone, Copy, Debug, PartialEq)]
pub struct Path {
    pub s12x: f64,
    pub m12x: f64,
    pub a12: f64,
    pub M12: f64,
    pub M21: f64,
    pub alp1: Azimuth,
    pub alp2: Azimuth,
    pub way: Way,
}

// A figure, or 0 for an arc that is none but for rounding.
fn of_arc(arc: &Arc, figure: f64) -> f64
    ensures { result ≡ Definitions.of_arc arc.now figure }
{
    if arc.sig12 < 3.0 * TINY { 0.0 } else { figure }
}

// The reduced length and the scales are reckoned together with the distance.
#[tactic(auto, unfolding(crate::specs::Paths::length_mask))]
fn length_mask(mask: u64) -> u64
    ensures { result ≡ Definitions.length_mask mask }
{
    if wanted(mask, REDUCEDLENGTH | GEODESICSCALE) {
        mask | DISTANCE
    } else {
        mask
    }
}

impl<F: FunctionSet> Task<'_, F> {
    #[tactic(auto, unfolding(crate::specs::Paths::on_meridian))]
    fn is_on_meridian(&self) -> bool
        ensures { result ≡ Definitions.on_meridian self.now.form self.now.problem.difference }
    {
        self.form.lat1 == -90.0 || self.problem.difference.slam12 == 0.0
    }

    #[tactic(auto, unfolding(crate::specs::Paths::meridian_arc))]
    fn meridian_arc(&self) -> Arc
        ensures { result ≡ Definitions.meridian_arc (F.funcs self.now.problem.set.now) self.now.problem.ends self.now.problem.difference }
    {
        let e = self.problem.ends;
        let (calp1, calp2) = (self.problem.difference.clam12, 1.0);
        let from = (e.sbet1, calp1 * e.cbet1);
        let to = (e.sbet2, calp2 * e.cbet2);
        Arc::between(self.problem.set, from, to)
    }

    #[tactic(auto, unfolding(crate::specs::Paths::meridian_lengths))]
    fn meridian_lengths(&self, arc: &Arc) -> Lengths
        ensures { result ≡ Definitions.meridian_lengths self.now.problem.shape.now arc.now self.now.problem.ends self.now.mask }
    {
        let shape = self.problem.shape;
        let mask = self.mask | DISTANCE | REDUCEDLENGTH;
        shape._Lengths(shape.n, arc, &self.problem.ends, mask)
    }

    #[tactic(auto, unfolding(crate::specs::Paths::meridian_path))]
    fn meridian_path(&self, arc: &Arc, l: &Lengths) -> Path
        ensures { result ≡ Definitions.meridian_path self.now.problem.shape.now self.now.problem.difference arc.now l.now }
    {
        Path {
            s12x: of_arc(arc, l.s12b) * self.problem.shape.b,
            m12x: of_arc(arc, l.m12b) * self.problem.shape.b,
            a12: of_arc(arc, arc.sig12).to_degrees(),
            M12: l.M12,
            M21: l.M21,
            alp1: Azimuth {
                salp: self.problem.difference.slam12,
                calp: self.problem.difference.clam12,
            },
            alp2: Azimuth {
                salp: 0.0,
                calp: 1.0,
            },
            way: Way::Meridian,
        }
    }

    #[tactic(auto, unfolding(crate::specs::Paths::on_equator))]
    fn is_on_equator(&self) -> bool
        ensures { result ≡ Definitions.on_equator self.now.problem.shape.now self.now.form self.now.problem.ends }
    {
        let f = self.problem.shape.f;
        self.problem.ends.sbet1 == 0.0 && (f <= 0.0 || self.form.lon12s >= f * 180.0)
    }

    // The scale at both ends of an arc of the sphere where it is wanted, else NaN, as in the crate.
    fn scale_if(&self, angle: f64) -> f64
        ensures { result ≡ Definitions.scale_if (F.funcs self.now.problem.set.now) angle self.now.mask }
    {
        wanted_or_nan(self.mask, GEODESICSCALE, || self.problem.set.cos(angle))
    }

    #[tactic(auto, unfolding(crate::specs::Paths::equator_path))]
    fn equator_path(&self) -> Path
        ensures { result ≡ Definitions.equator_path (F.funcs self.now.problem.set.now) self.now.problem.shape.now self.now.form self.now.problem.difference self.now.mask }
    {
        let shape = self.problem.shape;
        let lam12 = self.problem.difference.lam12;
        let omg12 = lam12 / shape.f1;
        let scale = self.scale_if(omg12);
        let east = Azimuth {
            salp: 1.0,
            calp: 0.0,
        };
        Path {
            s12x: shape.a * lam12,
            m12x: shape.b * self.problem.set.sin(omg12),
            a12: self.form.lon12 / shape.f1,
            M12: scale,
            M21: scale,
            alp1: east,
            alp2: east,
            way: Way::Direct { omg12 },
        }
    }

    #[tactic(auto, unfolding(crate::specs::Paths::short_path))]
    fn short_path(&self, s: &Start) -> Path
        ensures { result ≡ Definitions.short_path (F.funcs self.now.problem.set.now) self.now.problem.shape.now self.now.problem.difference s.now self.now.mask }
    {
        let shape = self.problem.shape;
        let angle = s.sig12 / s.dnm;
        let scale = self.scale_if(angle);
        Path {
            s12x: s.sig12 * shape.b * s.dnm,
            m12x: sq(s.dnm) * shape.b * self.problem.set.sin(angle),
            a12: s.sig12.to_degrees(),
            M12: scale,
            M21: scale,
            alp1: s.alp1,
            alp2: s.alp2,
            way: Way::Direct {
                omg12: self.problem.difference.lam12 / (shape.f1 * s.dnm),
            },
        }
    }

    #[tactic(auto, unfolding(crate::specs::Paths::found_lengths))]
    fn found_lengths(&self, r: &Found) -> Lengths
        ensures { result ≡ Definitions.found_lengths self.now.problem.shape.now self.now.problem.ends r.now self.now.mask }
    {
        let Problem { shape, ends, .. } = &self.problem;
        shape._Lengths(r.last.eps, &r.last.arc, ends, length_mask(self.mask))
    }

    #[tactic(auto, unfolding(crate::specs::Paths::found_path))]
    fn found_path(&self, r: &Found, l: &Lengths) -> Path
        ensures { result ≡ Definitions.found_path self.now.problem.shape.now r.now l.now }
    {
        Path {
            s12x: l.s12b * self.problem.shape.b,
            m12x: l.m12b * self.problem.shape.b,
            a12: r.last.arc.sig12.to_degrees(),
            M12: l.M12,
            M21: l.M21,
            alp1: r.alp1,
            alp2: r.last.alp2,
            way: Way::Newton {
                domg12: r.last.domg12,
                evaluations: r.evaluations,
            },
        }
    }

    #[tactic(auto, unfolding(crate::specs::Paths::newton_path))]
    fn newton_path(&self, s: &Start) -> Path
        ensures { result ≡ of_problem F.funcs self.now.problem Definitions.newton_path s.now self.now.mask }
    {
        let found = self.problem.solve_azimuth(s.alp1);
        self.found_path(&found, &self.found_lengths(&found))
    }

    #[tactic(auto, unfolding(crate::specs::Paths::other_path))]
    fn other_path(&self) -> Path
        ensures { result ≡ of_task F.funcs self.now Definitions.other_path }
    {
        if self.is_on_equator() {
            return self.equator_path();
        }
        let start = self.problem._InverseStart();
        if start.sig12 >= 0.0 {
            self.short_path(&start)
        } else {
            self.newton_path(&start)
        }
    }

    // The way along the meridian where it is the shortest one.
    #[tactic(auto, unfolding(crate::specs::Paths::meridian_first))]
    fn meridian_first(&self) -> Path
        ensures { result ≡ of_task F.funcs self.now Definitions.meridian_first }
    {
        let arc = self.meridian_arc();
        let l = self.meridian_lengths(&arc);
        if arc.sig12 < 1.0 || l.m12b >= 0.0 {
            self.meridian_path(&arc, &l)
        } else {
            self.other_path()
        }
    }

    // The shortest path between the two points.
    #[tactic(auto, unfolding(crate::specs::Paths::path_of))]
    pub fn path(&self) -> Path
        ensures { result ≡ of_task F.funcs self.now Definitions.path_of }
    {
        if self.is_on_meridian() {
            self.meridian_first()
        } else {
            self.other_path()
        }
    }
}
