// The value at a place of the values in order, found by counting: no value is moved and none is written.
#![tactic(auto)]

mod count;
mod guess;
mod key;

ghost use Rattle.std.specs.Prelude.{◌≡◌, ◌<◌, true, length};
ghost use Rattle.std.specs.Float.Ieee.{eq};
ghost use Rattle.model.specs.Values.{sorted, value_at, midpoint, threshold};
ghost use Rattle.ranks.specs.Finite.{all_finite, if_finite};

use crate::count::{all_finite, count_ahead_of_zero, count_below, count_up_to, stands_at};
use crate::guess::{Span, Turn, between, greatest_below, proposed, takes_value};
use crate::key::of_key;

// ---- the value at k

// Equal as a number to the value at k: which of two zeros it is stays open. The value stands between two keys, and each turn tries a key
// between them: that of a value, which is also asked for ties, or another one.
fn near_value(values: &[f64], k: usize) -> f64
    requires values_value { all_finite values.now ≡ true }
    requires k_in_bounds { k < length values.now }
    ensures { eq (value_at (sorted values.now) k) result ≡ true }
{
    // from the key of -∞ to that of ∞
    let mut span = Span {
        lo: 0x000f_ffff_ffff_ffff,
        hi: 0xfff0_0000_0000_0000,
        below: 0,
        upper: values.len(),
    };
    let mut turn = Turn::FirstValue;
    // a `while`: the span is halved until no key is inside
    'halving: while span.hi - span.lo > 1 {
        let valued = takes_value(k, span, turn);
        let first = if valued { span.lo } else { span.lo + 1 };
        let mid = between(first, span.hi, proposed(values, k, span, turn));
        let t = of_key(mid);
        let less = count_below(values, t);
        if k < less {
            span.hi = mid;
            span.upper = less;
        } else if valued {
            span.below = count_up_to(values, t);
            if k < span.below {
                return t;
            }
            span.lo = mid + 1;
        } else {
            span.lo = mid;
            span.below = less;
        }
        turn = turn.next();
    }
    of_key(span.lo)
}

// The value at k, from a float that is equal to it as a number. Each -0 stands ahead of each +0.
fn signed(values: &[f64], k: usize, t: f64) -> f64
    requires values_value { all_finite values.now ≡ true }
    requires k_in_bounds { k < length values.now }
    requires t_value { eq (value_at (sorted values.now) k) t ≡ true }
    ensures { result ≡ value_at (sorted values.now) k }
{
    if t == 0.0 {
        if k < count_ahead_of_zero(values) {
            return -0.0;
        }
        return 0.0;
    }
    t
}

// The value at k, from 0; not-a-number past the end.
fn kth_value(values: &[f64], k: usize) -> f64
    requires { all_finite values.now ≡ true }
    ensures { result ≡ value_at (sorted values.now) k }
{
    if values.len() <= k {
        return f64::NAN;
    }
    signed(values, k, near_value(values, k))
}

// The same, where the next value is known: most often it is that one, or the greatest below it.
fn prior_value(values: &[f64], k: usize, next: f64) -> f64
    requires { all_finite values.now ≡ true }
    ensures { result ≡ value_at (sorted values.now) k }
{
    if values.len() <= k {
        return f64::NAN;
    }
    if stands_at(values, k, next) {
        return signed(values, k, next);
    }
    let x = greatest_below(values, next);
    if stands_at(values, k, x) {
        return signed(values, k, x);
    }
    kth_value(values, k)
}

// ---- midpoint and rank

// Port of percentile_50 (conditional.rs), of values in any order. Nothing if a value is not finite; of no values it is not-a-number.
pub fn midpoint(values: &[f64]) -> Option<f64>
    ensures { result ≡ if_finite values.now (midpoint (sorted values.now)) }
{
    if !all_finite(values) {
        return None;
    }
    let upper = values.len() / 2;
    let high = kth_value(values, upper);
    if values.len() % 2 == 0 {
        let low = prior_value(values, upper.saturating_sub(1), high);
        return Some(low / 2.0 + high / 2.0);
    }
    Some(high)
}

// Port of the threshold of CfRule::TopBottom (conditional.rs), of values in any order. Nothing if a value is not finite.
pub fn threshold(bottom: bool, count: usize, values: &[f64]) -> Option<f64>
    ensures { result ≡ if_finite values.now (threshold bottom count (sorted values.now)) }
{
    if !all_finite(values) {
        return None;
    }
    if bottom {
        return Some(kth_value(values, count.saturating_sub(1)));
    }
    Some(kth_value(values, values.len().saturating_sub(count)))
}
