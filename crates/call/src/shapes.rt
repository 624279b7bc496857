// The shapes of the marks of a rule. The ends of a scale of two colours and of a bar give one shape to all marks; of a scale with three
// colours each half has its own.
ghost use Rattle.std.specs.Prelude.{ℕ, ◌<◌, ◌≤◌, ◌+◌, ◌≡◌, cond, map, Float, length, get_or};
ghost use Rattle.std.specs.Float.{nan};
ghost use Rattle.std.specs.Float.Ieee.{le};
ghost use Rattle.std.proofs.lemmas.List.Edits.{sets};
ghost use Rattle.model.specs.Ratio.{normalized, shape_number};
ghost use Rattle.hits.specs.Painted.{shape_by};

use crate::stores::{put_each, put_same};
use model::Test;
use ratio::{shape_number, shape_of};

// The number of the shape that these ends give to every value.
fn shape_between(least: f64, greatest: f64) -> u32
    ensures shape { (x : Float) → result ≡ shape_number (normalized x least greatest).shape }
    ensures small { result ≤ 2 }
{
    shape_number(shape_of(least, greatest))
}

// The midpoint belongs to the lower half.
fn half_of(x: f64, midpoint: f64, lower: u32, upper: u32) -> u32
    ensures { result ≡ cond (le x midpoint) lower upper }
{
    if x <= midpoint { lower } else { upper }
}

// One value for the marks of the lower half, and one for those of the upper.
fn put_halves(
    values: &[f64],
    hits: &[u16],
    midpoint: f64,
    lower: u32,
    upper: u32,
    n: usize,
    column: &mut [u32],
)
    requires { (k : ℕ) → k < length hits.now → get_or hits.now k 0 < length values.now }
    ensures { column.new ≡ sets column.old n
        (map (λ h. cond (le (get_or values.now h nan) midpoint) lower upper) hits.now) }
{
    put_each(hits, n, column, |hit| {
        half_of(values[hit as usize], midpoint, lower, upper)
    });
}

pub(crate) fn put_shapes(test: Test, values: &[f64], hits: &[u16], n: usize, column: &mut [u32])
    requires { (k : ℕ) → k < length hits.now → get_or hits.now k 0 < length values.now }
    ensures { column.new ≡ sets column.old n
        (map (λ h. shape_by test (get_or values.now h nan)) hits.now) }
{
    match test {
        Test::ColorScale2 {
            least,
            greatest,
            ..
        } => put_same(shape_between(least, greatest), hits.len(), n, column),
        Test::ColorScale3 {
            least,
            midpoint,
            greatest,
            ..
        } => {
            let lower = shape_between(least, midpoint);
            let upper = shape_between(midpoint, greatest) + 3;
            put_halves(values, hits, midpoint, lower, upper, n, column)
        }
        Test::DataBar {
            least,
            greatest,
            ..
        } => put_same(shape_between(least, greatest), hits.len(), n, column),
        _ => put_same(0, hits.len(), n, column),
    }
}
