// The expansions of the geodesic's two integrals in ε, to the sixth order.
ghost use Rattle.std.specs.Prelude.{◌≡◌};
ghost use Rattle.series.specs.Expansions.{A1m1f, A2m1f, fourier, C1f, C2f};

use crate::tables::{divisor, polyval_at, rest_from, row};
use geomath::sq;

const GEODESIC_ORDER: usize = 6;

const CARR_SIZE: usize = GEODESIC_ORDER + 1;

const COEFF_A1: [f64; 5] = [1.0, 4.0, 64.0, 0.0, 256.0];

const COEFF_A2: [f64; 5] = [-11.0, -28.0, -192.0, 0.0, 256.0];

const COEFF_C1: [f64; 18] = [
    -1.0, 6.0, -16.0, 32.0, -9.0, 64.0, -128.0, 2048.0, 9.0, -16.0, 768.0, 3.0, -5.0, 512.0, -7.0,
    1280.0, -7.0, 2048.0,
];

const COEFF_C2: [f64; 18] = [
    1.0, 2.0, 16.0, 32.0, 35.0, 64.0, 384.0, 2048.0, 15.0, 80.0, 768.0, 7.0, 35.0, 512.0, 63.0,
    1280.0, 77.0, 2048.0,
];

// A1 - 1, the scale of the distance integral I1.
pub fn _A1m1f(eps: f64) -> f64
    ensures { result ≡ A1m1f eps }
{
    let t = row(&COEFF_A1, 0, GEODESIC_ORDER / 2, sq(eps));
    (t + eps) / (1.0 - eps)
}

// A2 - 1, the scale of the integral I2 of the reduced length.
pub fn _A2m1f(eps: f64) -> f64
    ensures { result ≡ A2m1f eps }
{
    let t = row(&COEFF_A2, 0, GEODESIC_ORDER / 2, sq(eps));
    (t - eps) / (1.0 + eps)
}

// The l-th coefficient is ε^l times the polynomial in ε² of the table's l-th row; element 0 is 0.
// Counted from 1, since l is the place written, the power of ε and what tells the degree of the row.
fn fourier_coefficients(table: &[f64; 18], eps: f64) -> [f64; CARR_SIZE]
    ensures { result ≡ fourier eps table.now }
{
    let eps2 = sq(eps);
    let mut c = [0.0; CARR_SIZE];
    let mut d = eps;
    let mut rows: &[f64] = table;
    for l in 1..=GEODESIC_ORDER {
        let m = (GEODESIC_ORDER - l) / 2;
        c[l] = d * polyval_at(rows, 0, m, eps2) / divisor(rows, 0, m);
        rows = rest_from(rows, m + 2);
        d *= eps;
    }
    c
}

// The coefficients C1 of the distance integral.
pub fn _C1f(eps: f64) -> [f64; CARR_SIZE]
    ensures { result ≡ C1f eps }
{
    fourier_coefficients(&COEFF_C1, eps)
}

// The coefficients C2 of the integral of the reduced length.
pub fn _C2f(eps: f64) -> [f64; CARR_SIZE]
    ensures { result ≡ C2f eps }
{
    fourier_coefficients(&COEFF_C2, eps)
}
