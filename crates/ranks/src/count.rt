// How many values are less than a float, at most it, or ahead of +0; and what the counts tell. No branch depends on a value.
ghost use Rattle.std.specs.Prelude.{◌≡◌};
ghost use Rattle.model.specs.Ratio.{zero_f};
ghost use Rattle.model.specs.Values.{comes_before};
ghost use Rattle.ranks.specs.Counts.{below, up_to, ahead, stands_at};
ghost use Rattle.ranks.specs.Finite.{all_finite};

pub(crate) fn count_below(values: &[f64], t: f64) -> usize
    ensures { result ≡ below t values.now }
{
    let mut count = 0;
    for x in values {
        if *x < t {
            count += 1;
        }
    }
    count
}

pub(crate) fn count_up_to(values: &[f64], t: f64) -> usize
    ensures { result ≡ up_to t values.now }
{
    let mut count = 0;
    for x in values {
        if *x <= t {
            count += 1;
        }
    }
    count
}

// Whether x is less than +0 or is -0. The quotient stands outside the test, so that a loop over values has no branch in it.
fn is_ahead_of_zero(x: f64) -> bool
    ensures { result ≡ comes_before x zero_f }
{
    let inverse = 1.0 / x;
    let y = if x == 0.0 { inverse } else { x };
    y < 0.0
}

pub(crate) fn count_ahead_of_zero(values: &[f64]) -> usize
    ensures { result ≡ ahead zero_f values.now }
{
    let mut count = 0;
    for x in values {
        if is_ahead_of_zero(*x) {
            count += 1;
        }
    }
    count
}

// Whether at most k values are less than t and more than k are at most t.
pub(crate) fn stands_at(values: &[f64], k: usize, t: f64) -> bool
    ensures { result ≡ stands_at values.now k t }
{
    count_below(values, t) <= k && k < count_up_to(values, t)
}

// Finite values are all less than ∞ and greater than -∞. All are looked at.
pub(crate) fn all_finite(values: &[f64]) -> bool
    ensures { result ≡ all_finite values.now }
{
    let mut count = 0;
    for x in values {
        if (f64::NEG_INFINITY < *x) & (*x < f64::INFINITY) {
            count += 1;
        }
    }
    count == values.len()
}
