// Polynomials whose coefficients stand in the rows of a table.
// Places in the table are numbers, as in the crate, where each row begins at its offset.
ghost use Rattle.std.specs.Prelude.{◌≡◌, drop};
ghost use Rattle.series.specs.Tables.{polynomial_at, divisor_at, row_at};

use floats::polyval;

// The part of the table from the place `at` on, empty past its end.
pub fn rest_from(table: &[f64], at: usize) -> &[f64]
    ensures { result.now ≡ drop at table.now }
{
    table.get(at..).unwrap_or(&[])
}

// The polynomial of degree m at x, whose coefficients stand in the table from the place `at` on; past
// the table's end there are no coefficients.
pub fn polyval_at(table: &[f64], at: usize, m: usize, x: f64) -> f64
    ensures { result ≡ polynomial_at x table.now at m }
{
    let rest = rest_from(table, at);
    polyval(rest.get(..=m).unwrap_or(rest), x)
}

// The number behind the m + 1 coefficients of a row. NaN where the table ends before, since every
// place is answered; the rows of the crate's tables are whole.
pub fn divisor(table: &[f64], at: usize, m: usize) -> f64
    ensures { result ≡ divisor_at table.now at m }
{
    let rest = rest_from(table, at);
    rest_from(rest, m).get(1).copied().unwrap_or(f64::NAN)
}

// The row of degree m at the place `at`, at x: its polynomial divided by the number behind it.
pub fn row(table: &[f64], at: usize, m: usize, x: f64) -> f64
    ensures { result ≡ row_at x table.now at m }
{
    polyval_at(table, at, m, x) / divisor(table, at, m)
}
