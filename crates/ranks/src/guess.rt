// What to try next. How many passes a search takes turns on it, and no answer: so little is promised.
ghost use Rattle.std.specs.Prelude.{◌<◌, ◌≤◌};

use crate::key::{key_of, of_key};
use readings::number::is_finite;
use std::num::nearest_u64_to_f64;
use values::{Bounds, greater, lesser};

// Where the value sought stands: its key is at least lo and less than hi, and so many values are below either.
#[derive(Clone, Copy)]
pub(crate) struct Span {
    pub(crate) lo: u64,
    pub(crate) hi: u64,
    pub(crate) below: usize,
    pub(crate) upper: usize,
}

// What is tried in a turn: a value of the slice, a key by rank, or the key halfway. The last bounds the number of turns.
#[derive(Clone, Copy)]
pub(crate) enum Turn {
    FirstValue,
    FirstRank,
    SecondValue,
    SecondRank,
    ThirdValue,
    Halfway,
}

impl Turn {
    pub(crate) fn next(self) -> Turn {
        match self {
            Turn::FirstValue => Turn::FirstRank,
            Turn::FirstRank => Turn::SecondValue,
            Turn::SecondValue => Turn::SecondRank,
            Turn::SecondRank => Turn::ThirdValue,
            Turn::ThirdValue => Turn::Halfway,
            Turn::Halfway => Turn::FirstValue,
        }
    }

    fn takes_value(self) -> bool {
        match self {
            Turn::FirstValue | Turn::SecondValue | Turn::ThirdValue => true,
            Turn::FirstRank | Turn::SecondRank | Turn::Halfway => false,
        }
    }
}

// A key from `first` on and below hi: the one proposed, or else the middle one.
pub(crate) fn between(first: u64, hi: u64, proposed: Option<u64>) -> u64
    requires { first < hi }
    ensures { (first ≤ result) × (result < hi) }
{
    match proposed {
        Some(key) if first <= key && key < hi => key,
        _ => first + (hi - first) / 2,
    }
}

// ---- a value of the slice

// The first value from `at` on that is at least a and at most z. The product comes first, since each of the two comparisons is as often
// true as not, and a branch on it would be guessed wrong.
fn scan(values: &[f64], at: usize, a: f64, z: f64) -> Option<f64> {
    for i in at..values.len() {
        let x = values[i];
        if !((x - a) * (z - x) < 0.0) {
            if a <= x && x <= z {
                return Some(x);
            }
        }
    }
    None
}

// The index to look from: rising values have the value sought at k, falling values as far from the end.
fn likely_index(values: &[f64], k: usize) -> usize {
    let n = values.len();
    if n <= k {
        return 0;
    }
    if values[n - 1] < values[0] {
        return n - 1 - k;
    }
    k
}

// The key of a value in the span: the first from the likely index on, or else from the front.
fn key_sought(values: &[f64], k: usize, span: Span) -> Option<u64> {
    let a = of_key(span.lo);
    let z = of_key(span.hi.checked_sub(1)?);
    match scan(values, likely_index(values, k), a, z) {
        Some(x) => key_of(x),
        None => key_of(scan(values, 0, a, z)?),
    }
}

// ---- by rank

// Four side by side, so that none waits for another. Up to three values at the end are left out.
fn ends_of(values: &[f64]) -> Bounds {
    let mut part1 = Bounds {
        least: f64::INFINITY,
        greatest: f64::NEG_INFINITY,
    };
    let mut part2 = part1;
    let mut part3 = part1;
    let mut part4 = part1;
    for i in 0..values.len() / 4 {
        part1 = part1.with(values[4 * i]);
        part2 = part2.with(values[4 * i + 1]);
        part3 = part3.with(values[4 * i + 2]);
        part4 = part4.with(values[4 * i + 3]);
    }
    part1.joined(part3).joined(part2.joined(part4))
}

fn number(n: usize) -> f64 {
    nearest_u64_to_f64(n as u64)
}

// As far between the ends of the span as k is between their ranks. In place of an infinite end stands that of the values.
fn by_rank(values: &[f64], k: usize, span: Span) -> Option<u64> {
    let mut a = of_key(span.lo);
    let mut z = of_key(span.hi);
    if !is_finite(a) || !is_finite(z) {
        let ends = ends_of(values);
        a = greater(a, ends.least);
        z = lesser(z, ends.greatest);
    }
    let below = number(span.below);
    let part = (number(k) - below + 0.5) / (number(span.upper) - below);
    key_of(a + (z - a) * part)
}

// ---- a turn

fn is_first(k: usize, span: Span) -> bool {
    k == span.below
}

fn is_last(k: usize, span: Span) -> bool {
    span.upper.saturating_sub(k) == 1
}

// Whether a value is tried, which may be that of lo; or else a key above lo.
pub(crate) fn takes_value(k: usize, span: Span, turn: Turn) -> bool {
    turn.takes_value() || is_first(k, span) || is_last(k, span)
}

pub(crate) fn proposed(values: &[f64], k: usize, span: Span, turn: Turn) -> Option<u64> {
    if is_first(k, span) {
        return key_of(least_from(values, of_key(span.lo)));
    }
    if is_last(k, span) {
        return key_of(greatest_below(values, of_key(span.hi)));
    }
    match turn {
        Turn::FirstRank | Turn::SecondRank => by_rank(values, k, span),
        Turn::Halfway => None,
        Turn::FirstValue | Turn::SecondValue | Turn::ThirdValue => key_sought(values, k, span),
    }
}

// ---- the values next to a float

// The greater of g and x, if x is less than t; low is a float that nothing is less than.
fn raised(g: f64, x: f64, t: f64, low: f64) -> f64 {
    greater(g, if x < t { x } else { low })
}

// The greatest of the values less than t; -∞ if there is none. Two side by side: the machine takes two floats at a time.
pub(crate) fn greatest_below(values: &[f64], t: f64) -> f64 {
    let low = f64::NEG_INFINITY;
    let mut g = low;
    let mut h = low;
    for i in 0..values.len() / 2 {
        g = raised(g, values[2 * i], t, low);
        h = raised(h, values[2 * i + 1], t, low);
    }
    if values.len() % 2 == 1 {
        g = raised(g, values[values.len() - 1], t, low);
    }
    greater(g, h)
}

// The lesser of l and x, unless x is less than t; high is a float that nothing is greater than.
fn lowered(l: f64, x: f64, t: f64, high: f64) -> f64 {
    lesser(l, if x < t { high } else { x })
}

// The least of the values not less than t; ∞ if there is none.
fn least_from(values: &[f64], t: f64) -> f64 {
    let high = f64::INFINITY;
    let mut l = high;
    let mut m = high;
    for i in 0..values.len() / 2 {
        l = lowered(l, values[2 * i], t, high);
        m = lowered(m, values[2 * i + 1], t, high);
    }
    if values.len() % 2 == 1 {
        l = lowered(l, values[values.len() - 1], t, high);
    }
    lesser(l, m)
}
