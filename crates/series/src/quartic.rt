// The astroid problem, which starts Newton's method for nearly antipodal points.
ghost use Rattle.std.specs.Prelude.{◌≡◌};
ghost use Rattle.series.specs.Astroid.{discriminant, cube_t, one_root, three_roots, resolvent, root_v, sum_uv, positive_root, astroid};

use floats::sqrt;
use functions::FunctionSet;
use geomath::sq;

fn discriminant_of(s: f64, r: f64) -> f64
    ensures { result ≡ discriminant s r }
{
    let r3 = r * sq(r);
    s * (s + 2.0 * r3)
}

// The cube of T: of the two roots of its square the one that has the sign of the rest, so that the
// sum loses no digits.
fn cube_of_t(s: f64, r: f64) -> f64
    ensures { result ≡ cube_t s r }
{
    let t3 = s + r * sq(r);
    let d = sqrt(discriminant_of(s, r));
    t3 + if t3 < 0.0 { -d } else { d }
}

// The cubic's root where it has but one; T = 0 only where r = 0 too.
fn one_root<F: FunctionSet>(set: &F, s: f64, r: f64) -> f64
    ensures { result ≡ one_root (F.funcs set.now) s r }
{
    let t = set.cbrt(cube_of_t(s, r));
    r + (t + if t == 0.0 { 0.0 } else { sq(r) / t })
}

// Of the cubic's three roots the one of the largest size: T is complex, and a third of its angle is
// taken.
fn three_roots<F: FunctionSet>(set: &F, s: f64, r: f64) -> f64
    ensures { result ≡ three_roots (F.funcs set.now) s r }
{
    let disc = discriminant_of(s, r);
    let ang = set.atan2(sqrt(-disc), -(s + r * sq(r)));
    r + 2.0 * r * set.cos(ang / 3.0)
}

// A root u of the resolvent cubic.
#[tactic(auto, unfolding(crate::specs::Astroid::resolvent))]
fn cubic_root<F: FunctionSet>(set: &F, s: f64, r: f64) -> f64
    ensures { result ≡ resolvent (F.funcs set.now) s r }
{
    if discriminant_of(s, r) >= 0.0 {
        one_root(set, s, r)
    } else {
        three_roots(set, s, r)
    }
}

// u + v with v = √(u² + q), for a negative u by the quotient that loses no digits.
fn sum_uv(u: f64, v: f64, q: f64) -> f64
    requires { v ≡ root_v u q }
    ensures { result ≡ sum_uv u q }
{
    if u < 0.0 { q / (v - u) } else { u + v }
}

// The quartic's positive root from the cubic's.
#[tactic(auto, unfolding(crate::specs::Astroid::positive_root))]
fn positive_root(u: f64, q: f64) -> f64
    ensures { result ≡ positive_root u q }
{
    let v = sqrt(sq(u) + q);
    let uv = sum_uv(u, v, q);
    let w = (uv - q) / (2.0 * v);
    uv / (sqrt(uv + sq(w)) + w)
}

// The positive root κ of κ⁴ + 2κ³ + (1 - x² - y²)κ² - 2y²κ - y² = 0, or 0 where there is none.
#[tactic(auto, unfolding(crate::specs::Astroid::astroid))]
pub fn astroid<F: FunctionSet>(set: &F, x: f64, y: f64) -> f64
    ensures { result ≡ astroid (F.funcs set.now) x y }
{
    let p = sq(x);
    let q = sq(y);
    let r = (p + q - 1.0) / 6.0;
    if q == 0.0 && r <= 0.0 {
        return 0.0;
    }
    positive_root(cubic_root(set, p * q / 4.0, r), q)
}
