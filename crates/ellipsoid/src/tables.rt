// The tables of coefficients of A3, C3 and C4: in each row the coefficients of a polynomial in the
// third flattening n, highest power first, and then their common divisor.
ghost use Rattle.std.specs.Prelude.{◌≡◌, ◌≤◌};
ghost use Rattle.ellipsoid.specs.Tables.{rows_of, coeff_a3, coeff_c3, coeff_c4, degrees_a3, degrees_c3, degrees_c4};

use series::row;

const COEFF_A3: [f64; 18] = [
    -3.0, 128.0, -2.0, -3.0, 64.0, -1.0, -3.0, -1.0, 16.0, 3.0, -1.0, -2.0, 8.0, 1.0, -1.0, 2.0,
    1.0, 1.0,
];

const COEFF_C3: [f64; 45] = [
    3.0, 128.0, 2.0, 5.0, 128.0, -1.0, 3.0, 3.0, 64.0, -1.0, 0.0, 1.0, 8.0, -1.0, 1.0, 4.0, 5.0,
    256.0, 1.0, 3.0, 128.0, -3.0, -2.0, 3.0, 64.0, 1.0, -3.0, 2.0, 32.0, 7.0, 512.0, -10.0, 9.0,
    384.0, 5.0, -9.0, 5.0, 192.0, 7.0, 512.0, -14.0, 7.0, 512.0, 21.0, 2560.0,
];

const COEFF_C4: [f64; 77] = [
    97.0, 15015.0, 1088.0, 156.0, 45045.0, -224.0, -4784.0, 1573.0, 45045.0, -10656.0, 14144.0,
    -4576.0, -858.0, 45045.0, 64.0, 624.0, -4576.0, 6864.0, -3003.0, 15015.0, 100.0, 208.0, 572.0,
    3432.0, -12012.0, 30030.0, 45045.0, 1.0, 9009.0, -2944.0, 468.0, 135135.0, 5792.0, 1040.0,
    -1287.0, 135135.0, 5952.0, -11648.0, 9152.0, -2574.0, 135135.0, -64.0, -624.0, 4576.0, -6864.0,
    3003.0, 135135.0, 8.0, 10725.0, 1856.0, -936.0, 225225.0, -8448.0, 4992.0, -1144.0, 225225.0,
    -1440.0, 4160.0, -4576.0, 1716.0, 225225.0, -136.0, 63063.0, 1024.0, -208.0, 105105.0, 3584.0,
    -3328.0, 1144.0, 315315.0, -128.0, 135135.0, -2560.0, 832.0, 405405.0, 128.0, 99099.0,
];

// The degree of each row of a table, told beside it: the tables themselves are the crate's.
const DEGREES_A3: [u8; 6] = [0, 1, 2, 2, 1, 0];

const DEGREES_C3: [u8; 15] = [0, 1, 2, 2, 1, 0, 1, 2, 2, 0, 1, 2, 0, 1, 0];

const DEGREES_C4: [u8; 21] = [
    0, 1, 2, 3, 4, 5, 0, 1, 2, 3, 4, 0, 1, 2, 3, 0, 1, 2, 0, 1, 0,
];

// The rows of a table at x, read from a place that steps on by each row's length. A degree goes by its
// index, since a proof knows nothing of what is written behind a zip of `iter_mut()`.
fn rows<const N: usize>(table: &[f64], degrees: &[u8; N], x: f64) -> [f64; N]
    requires { N ≤ 21 }
    ensures { result ≡ rows_of x table.now degrees.now }
{
    let mut values = [0.0; N];
    let mut o: usize = 0;
    for (k, value) in values.iter_mut().enumerate() {
        let m = degrees[k] as usize;
        *value = row(table, o, m, x);
        o += m + 2;
    }
    values
}

// The coefficients of A3 in powers of ε; one function for each table, as `_A3coeff`, `_C3coeff` and
// `_C4coeff` in the crate.
pub fn a3_coefficients(n: f64) -> [f64; 6]
    ensures { result ≡ rows_of n coeff_a3 degrees_a3 }
{
    rows(&COEFF_A3, &DEGREES_A3, n)
}

// The coefficients of C3 in powers of ε.
pub fn c3_coefficients(n: f64) -> [f64; 15]
    ensures { result ≡ rows_of n coeff_c3 degrees_c3 }
{
    rows(&COEFF_C3, &DEGREES_C3, n)
}

// The coefficients of C4 in powers of ε.
pub fn c4_coefficients(n: f64) -> [f64; 21]
    ensures { result ≡ rows_of n coeff_c4 degrees_c4 }
{
    rows(&COEFF_C4, &DEGREES_C4, n)
}
