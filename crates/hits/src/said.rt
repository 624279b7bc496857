// What a test says of each region, a byte each: 0 if it passes the region over, 1 if it paints it, 2 if the region leaves it unresolved.
// No loop has a branch. Not-a-number, which is what no number is in a column, fails every comparison.
ghost use Rattle.std.specs.Prelude.{ℕ, ◌<◌, ◌≤◌, ◌≡◌, Option, Bool, true, false, List, Float, length, get_or};
ghost use Rattle.std.specs.Float.{nan};
ghost use Rattle.std.specs.Float.Ieee.{eq};
ghost use Rattle.model.specs.declared.ConditionalOperand.{ConditionalOperand};
ghost use Rattle.model.specs.declared.Rgb.{Rgb};
ghost use Rattle.model.specs.declared.Test.{Test};
ghost use Rattle.model.specs.Comparison.{uses_second, compare_conditional, compare};
ghost use Rattle.hits.specs.Said.{byte_of, interval, say_interval, wanted_as, compared, say_compared, is_between, say_between, say_counted};
ghost use Rattle.hits.specs.Hits.{is_literal, by_literals, known, verdict_by};

use crate::intervals::{interval_by_number, interval_of};
use crate::{Interval, Wanted};
use comparison::uses_second;
use model::{ConditionalComparison, ConditionalOperand, DvOp, Test};
use readings::number::is_finite;

// ---- one comparison for all regions

fn say_inside(values: &[f64], low: f64, high: f64, said: &mut [u8])
    requires { length values.now ≤ length said.old }
    ensures { (i : ℕ) → i < length values.now
        → get_or said.new i 0 ≡ say_interval (interval true low high) (get_or values.now i nan) }
{
    for i in 0..values.len() {
        let x = values[i];
        said[i] = ((low <= x) & (x <= high)) as u8;
    }
}

fn say_outside(values: &[f64], low: f64, high: f64, said: &mut [u8])
    requires { length values.now ≤ length said.old }
    ensures { (i : ℕ) → i < length values.now
        → get_or said.new i 0 ≡ say_interval (interval false low high) (get_or values.now i nan) }
{
    for i in 0..values.len() {
        let x = values[i];
        said[i] = ((x < low) | (high < x)) as u8;
    }
}

fn say_interval(values: &[f64], wanted: Interval, said: &mut [u8])
    requires { length values.now ≤ length said.old }
    ensures { (i : ℕ) → i < length values.now
        → get_or said.new i 0 ≡ say_interval wanted (get_or values.now i nan) }
{
    match wanted {
        Interval::Inside { low, high } => say_inside(values, low, high, said),
        Interval::Outside { low, high } => say_outside(values, low, high, said),
    }
}

// A key that stands once in range, or more than once.
fn say_counted(founds: &[u16], unique: bool, said: &mut [u8])
    requires { length founds.now ≤ length said.old }
    ensures { (i : ℕ) → i < length founds.now
        → get_or said.new i 0 ≡ say_counted unique (get_or founds.now i 0) }
{
    for i in 0..founds.len() {
        let found = founds[i];
        said[i] = ((unique & (found == 1)) | (!unique & (found > 1))) as u8;
    }
}

// ---- a comparison of its own for each region

// A region without its left number is passed over, or leaves the test unresolved where that is needed.
fn say_compared(left: &[f64], right: &[f64], wanted: Wanted, needed: bool, said: &mut [u8])
    requires { (length left.now ≤ length right.now) × (length left.now ≤ length said.old) }
    ensures { (i : ℕ) → i < length left.now → get_or said.new i 0
        ≡ say_compared wanted needed (get_or left.now i nan) (get_or right.now i nan) }
{
    let Wanted { less, same, more } = wanted;
    for i in 0..left.len() {
        let x = left[i];
        let y = right[i];
        let met = (less & (x < y)) | (same & (x == y)) | (more & (y < x));
        let missing = (!(y == y) & ((x == x) | needed)) | (!(x == x) & needed);
        said[i] = if missing { 2 } else { met as u8 };
    }
}

fn say_between(values: &[f64], lows: &[f64], highs: &[f64], inside: bool, said: &mut [u8])
    requires { (length values.now ≤ length lows.now) × (length values.now ≤ length highs.now)
        × (length values.now ≤ length said.old) }
    ensures { (i : ℕ) → i < length values.now → get_or said.new i 0 ≡ say_between inside
        (get_or values.now i nan) (get_or lows.now i nan) (get_or highs.now i nan) }
{
    for i in 0..values.len() {
        let x = values[i];
        let low = lows[i];
        let high = highs[i];
        let met = (inside & (low <= x) & (x <= high)) | (!inside & ((x < low) | (high < x)));
        let missing = (x == x) & (!(low == low) | !(high == high));
        said[i] = if missing { 2 } else { met as u8 };
    }
}

// ---- the tests

#[tactic(auto, unfolding(crate::specs::Hits::is_literal))]
fn is_literal(operand: ConditionalOperand) -> bool
    ensures { result ≡ is_literal operand }
{
    match operand {
        ConditionalOperand::Literal(x) => is_finite(x),
        _ => false,
    }
}

// The float of a literal, and of another operand 0.
fn literal_float(operand: ConditionalOperand) -> f64
    ensures { (x : Float) → operand ≡ ConditionalOperand.Literal x → result ≡ x }
{
    match operand {
        ConditionalOperand::Literal(x) => x,
        _ => 0.0,
    }
}

fn wanted(less: bool, same: bool, more: bool) -> Wanted
    ensures { result ≡ wanted_as less same more }
{
    Wanted { less, same, more }
}

// Of an operator with one operand. The other two compare by an interval.
fn wanted_of(op: DvOp) -> Wanted
    ensures { (x y : Float) (second : Option Float) → uses_second op ≡ false → eq x x ≡ true → eq y y ≡ true
        → compared result x y ≡ compare_conditional x op y second }
{
    match op {
        DvOp::Between => wanted(false, false, false),
        DvOp::NotBetween => wanted(false, false, false),
        DvOp::Equal => wanted(false, true, false),
        DvOp::NotEqual => wanted(true, false, true),
        DvOp::GreaterThan => wanted(false, false, true),
        DvOp::LessThan => wanted(true, false, false),
        DvOp::GreaterThanOrEqual => wanted(false, true, true),
        DvOp::LessThanOrEqual => wanted(true, true, false),
    }
}

// Of an expression.
fn wanted_for(op: ConditionalComparison) -> Wanted
    ensures { (x y : Float) → eq x x ≡ true → eq y y ≡ true → compared result x y ≡ compare op x y }
{
    match op {
        ConditionalComparison::Equal => wanted(false, true, false),
        ConditionalComparison::NotEqual => wanted(true, false, true),
        ConditionalComparison::Less => wanted(true, false, false),
        ConditionalComparison::LessOrEqual => wanted(true, true, false),
        ConditionalComparison::Greater => wanted(false, false, true),
        ConditionalComparison::GreaterOrEqual => wanted(false, true, true),
    }
}

#[tactic(auto, unfolding(crate::specs::Said::is_between))]
fn is_between(op: DvOp) -> bool
    ensures { result ≡ is_between op }
{
    matches!(op, DvOp::Between)
}

// Whether the operands are literals, as far as the operator uses them.
#[tactic(auto, unfolding(crate::specs::Hits::by_literals))]
pub(crate) fn literals(op: DvOp, first: ConditionalOperand, second: ConditionalOperand) -> bool
    ensures { (fill : Rgb) → result ≡ by_literals (Test.CellIs op first second fill) }
{
    is_literal(first) && (is_literal(second) || !uses_second(op))
}

fn say_cell_is(
    op: DvOp,
    first: ConditionalOperand,
    second: ConditionalOperand,
    values: &[f64],
    firsts: &[f64],
    seconds: &[f64],
    said: &mut [u8],
)
    requires { (length values.now ≤ length firsts.now) × (length values.now ≤ length seconds.now)
        × (length values.now ≤ length said.old) }
    ensures { (fill : Rgb) (imported : Bool) (founds : List ℕ) (i : ℕ) → i < length values.now
        → get_or said.new i 0 ≡ byte_of (verdict_by (known values.now firsts.now seconds.now founds)
        (Test.CellIs op first second fill) imported i) }
{
    if literals(op, first, second) {
        let wanted = interval_of(op, literal_float(first), literal_float(second));
        say_interval(values, wanted, said);
        return;
    }
    if uses_second(op) {
        say_between(values, firsts, seconds, is_between(op), said);
        return;
    }
    say_compared(values, firsts, wanted_of(op), false, said);
}

// Of any test.
pub(crate) fn say(
    test: Test,
    values: &[f64],
    firsts: &[f64],
    seconds: &[f64],
    founds: &[u16],
    said: &mut [u8],
)
    requires { (length firsts.now ≡ length values.now) × (length seconds.now ≡ length values.now)
        × (length founds.now ≡ length values.now) × (length values.now ≤ length said.old) }
    ensures { (imported : Bool) (i : ℕ) → i < length values.now → get_or said.new i 0
        ≡ byte_of (verdict_by (known values.now firsts.now seconds.now founds.now) test imported
        i) }
{
    match test {
        Test::CellIs {
            op,
            first,
            second,
            ..
        } => say_cell_is(op, first, second, values, firsts, seconds, said),
        Test::DuplicateValues { unique, .. } => say_counted(founds, unique, said),
        Test::Expression { op, .. } => say_compared(firsts, seconds, wanted_for(op), true, said),
        _ => say_interval(values, interval_by_number(test), said),
    }
}
