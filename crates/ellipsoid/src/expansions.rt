// The expansions A3, C3 and C4 of one ellipsoid in powers of ε.
ghost use Rattle.std.specs.Prelude.{◌≡◌, ◌≤◌};
ghost use Rattle.ellipsoid.specs.Expansions.{A3f, C3f, C4f, epsilon, triangle};

use crate::shape::Ellipsoid;
use floats::{polyval, sqrt};
use series::polyval_at;

// ε from k², written so that nothing cancels.
pub fn expansion_parameter(k2: f64) -> f64
    ensures { result ≡ epsilon k2 }
{
    k2 / (2.0 * (1.0 + sqrt(1.0 + k2)) + k2)
}

// The polynomials at x of rows of N, N - 1, .. 1 coefficients, times a power that grows by x.
fn triangle_rows<const N: usize>(table: &[f64], mut power: f64, x: f64) -> [f64; N]
    requires { N ≤ 6 }
    ensures { result ≡ triangle x power table.now N }
{
    let mut values = [0.0; N];
    let mut o: usize = 0;
    for (l, value) in values.iter_mut().enumerate() {
        let m = N - l - 1;
        *value = power * polyval_at(table, o, m, x);
        o += m + 1;
        power *= x;
    }
    values
}

impl Ellipsoid {
    // The scale of the longitude integral I3.
    #[tactic(auto, unfolding(crate::specs::Expansions::A3f))]
    pub fn _A3f(&self, eps: f64) -> f64
        ensures { result ≡ A3f self.now eps }
    {
        polyval(&self.A3x, eps)
    }

    // The coefficients C3 of the longitude integral I3; element 0 is 0.
    #[tactic(auto, unfolding(crate::specs::Expansions::C3f, crate::specs::Expansions::triangle))]
    pub fn _C3f(&self, eps: f64) -> [f64; 6]
        ensures { result ≡ C3f self.now eps }
    {
        let [c1, c2, c3, c4, c5] = triangle_rows::<5>(&self.C3x, eps, eps);
        [0.0, c1, c2, c3, c4, c5]
    }

    // The coefficients C4 of the area integral I4.
    #[tactic(auto, unfolding(crate::specs::Expansions::C4f))]
    pub fn _C4f(&self, eps: f64) -> [f64; 6]
        ensures { result ≡ C4f self.now eps }
    {
        triangle_rows::<6>(&self.C4x, 1.0, eps)
    }
}
