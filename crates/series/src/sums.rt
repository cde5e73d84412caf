// Trigonometric sums by Clenshaw's recursion.
ghost use Rattle.std.specs.Prelude.{◌≡◌};
ghost use Rattle.series.specs.Clenshaw.{clenshaw, twice_cosine, sine_series, cosine_series, sin_cos_series};

use crate::tables::rest_from;

// The last two numbers of the recursion over the terms, from the last term to the first; two terms a
// turn, so that no number has to change its place.
fn recursion(ar: f64, terms: &[f64]) -> (f64, f64)
    ensures last { result.0 ≡ (clenshaw ar terms.now).y0 }
    ensures before { result.1 ≡ (clenshaw ar terms.now).y1 }
{
    let (pairs, single) = terms.as_chunks::<2>();
    let start = single.first().copied().unwrap_or(0.0);
    pairs.iter().rev().fold((start, 0.0), |(y0, y1), [c, d]| {
        let y1 = ar * y0 - y1 + *d;
        (ar * y1 - y0 + *c, y1)
    })
}

// 2 cos 2σ.
fn twice_cosine(sinx: f64, cosx: f64) -> f64
    ensures { result ≡ twice_cosine sinx cosx }
{
    2.0 * (cosx - sinx) * (cosx + sinx)
}

fn sine_series(sinx: f64, cosx: f64, c: &[f64]) -> f64
    ensures { result ≡ sine_series sinx cosx c.now }
{
    let (y0, _) = recursion(twice_cosine(sinx, cosx), rest_from(c, 1));
    2.0 * sinx * cosx * y0
}

fn cosine_series(sinx: f64, cosx: f64, c: &[f64]) -> f64
    ensures { result ≡ cosine_series sinx cosx c.now }
{
    let (y0, y1) = recursion(twice_cosine(sinx, cosx), c);
    cosx * (y0 - y1)
}

// With sin σ and cos σ: for sinp the sum of c_l sin 2lσ, l from 1 on, otherwise that of
// c_l cos (2l+1)σ, l from 0 on. The argument list is the crate's.
#[tactic(auto, unfolding(crate::specs::Clenshaw::sin_cos_series))]
pub fn sin_cos_series(sinp: bool, sinx: f64, cosx: f64, c: &[f64]) -> f64
    ensures { result ≡ sin_cos_series sinp sinx cosx c.now }
{
    if sinp {
        sine_series(sinx, cosx, c)
    } else {
        cosine_series(sinx, cosx, c)
    }
}
