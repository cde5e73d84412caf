// An inverse problem in canonical form, with the figures that are wanted of it.
ghost use Rattle.std.specs.Prelude.{◌≡◌};
ghost use Rattle.azimuth.specs.Problems.{of_problem};
ghost use Rattle.inverse.specs.Inverse as Definitions;

use crate::canonical::Canonical;
use crate::paths::Path;
use crate::problem::{Directions, Inverse};
use crate::wanted::wanted_or_nan;
use azimuth::problem::Problem;
use ellipsoid::capability::{AREA, DISTANCE, REDUCEDLENGTH, wanted};
use functions::FunctionSet;

// The problem on the auxiliary sphere, the canonical form that it comes from, and the crate's mask of
// the wanted figures.
#[derive_where(Clone, Copy)]
pub struct Task<'a, F> {
    pub problem: Problem<'a, F>,
    pub form: Canonical,
    pub mask: u64,
}

impl<F: FunctionSet> Task<'_, F> {
    fn area_if(&self, path: &Path) -> f64
        ensures { result ≡ of_problem F.funcs self.now.problem Definitions.area_if self.now.mask path.now }
    {
        // Without wanted_or_nan: at a call nothing is known of a closure that captures a problem.
        if wanted(self.mask, AREA) {
            path.area(&self.problem)
        } else {
            f64::NAN
        }
    }

    // The wanted figures of a path, the others NaN, as in the crate; of the lengths a zero is +0.
    #[tactic(auto, unfolding(crate::specs::Inverse::measured))]
    pub(crate) fn measure(&self, path: &Path) -> Inverse<Directions>
        ensures { result ≡ of_problem F.funcs self.now.problem Definitions.measured self.now.mask path.now }
    {
        Inverse {
            a12: path.a12,
            s12: wanted_or_nan(self.mask, DISTANCE, || 0.0 + path.s12x),
            directions: Directions {
                salp1: path.alp1.salp,
                calp1: path.alp1.calp,
                salp2: path.alp2.salp,
                calp2: path.alp2.calp,
            },
            m12: wanted_or_nan(self.mask, REDUCEDLENGTH, || 0.0 + path.m12x),
            M12: path.M12,
            M21: path.M21,
            S12: self.area_if(path),
            evaluations: path.way.evaluations(),
        }
    }
}
