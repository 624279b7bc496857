// The numbers that a test paints, as an interval, where it looks at nothing but the number of a region's cell.
ghost use Rattle.std.specs.Prelude.{◌≡◌, Bool, true, cond, Float};
ghost use Rattle.std.specs.Float.Ieee.{lt, le, eq};
ghost use Rattle.model.specs.Readings.{finite};
ghost use Rattle.model.specs.Comparison.{compare_conditional};
ghost use Rattle.hits.specs.Verdict.{by_number};
ghost use Rattle.hits.specs.Said.{byte_of, meets, say_interval};

use crate::Interval;
use model::{DvOp, Test};

// Of a cell-is test by literals.
pub(crate) fn interval_of(op: DvOp, a: f64, b: f64) -> Interval
    ensures { (x : Float) → finite a ≡ true → eq x x ≡ true → meets result x ≡ compare_conditional x op a (Some b) }
{
    match op {
        DvOp::Between => Interval::Inside { low: a, high: b },
        DvOp::NotBetween => Interval::Outside { low: a, high: b },
        DvOp::Equal => Interval::Inside { low: a, high: a },
        DvOp::NotEqual => Interval::Outside { low: a, high: a },
        DvOp::GreaterThan => Interval::Outside {
            low: f64::NEG_INFINITY,
            high: a,
        },
        DvOp::LessThan => Interval::Outside {
            low: a,
            high: f64::INFINITY,
        },
        DvOp::GreaterThanOrEqual => Interval::Inside {
            low: a,
            high: f64::INFINITY,
        },
        DvOp::LessThanOrEqual => Interval::Inside {
            low: f64::NEG_INFINITY,
            high: a,
        },
    }
}

// Of rank: all ties at the threshold.
fn interval_of_rank(bottom: bool, threshold: f64) -> Interval
    ensures { (x : Float) → eq x x ≡ true → meets result x ≡ cond bottom (le x threshold) (le threshold x) }
{
    if bottom {
        return Interval::Inside {
            low: f64::NEG_INFINITY,
            high: threshold,
        };
    }
    Interval::Inside {
        low: threshold,
        high: f64::INFINITY,
    }
}

// The average itself is neither above nor below.
fn interval_of_average(below: bool, average: f64) -> Interval
    ensures { (x : Float) → eq x x ≡ true → meets result x ≡ cond below (lt x average) (lt average x) }
{
    if below {
        return Interval::Outside {
            low: average,
            high: f64::INFINITY,
        };
    }
    Interval::Outside {
        low: f64::NEG_INFINITY,
        high: average,
    }
}

// Of a scale or a bar, which paints every number, of rank and of average. The other tests paint none by the number alone.
pub(crate) fn interval_by_number(test: Test) -> Interval
    ensures { (x : Float) (imported : Bool) → eq x x ≡ true → say_interval result x ≡ byte_of (by_number test imported x) }
{
    let every = Interval::Inside {
        low: f64::NEG_INFINITY,
        high: f64::INFINITY,
    };
    let none = Interval::Inside {
        low: f64::INFINITY,
        high: f64::NEG_INFINITY,
    };
    match test {
        Test::CellIs { .. } => none,
        Test::ColorScale2 { .. } => every,
        Test::ColorScale3 { .. } => every,
        Test::DataBar { .. } => every,
        Test::TopBottom {
            bottom,
            threshold,
            ..
        } => interval_of_rank(bottom, threshold),
        Test::AboveAverage { below, average, .. } => interval_of_average(below, average),
        Test::DuplicateValues { .. } => none,
        Test::Expression { .. } => none,
    }
}
