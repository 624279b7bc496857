// What a rule comes to ahead of its regions: the arms of resolve_conditional_paints (conditional.rs), each up to its loop over the regions.
// The definitions are model's Rule.antt. An inverted range defers before any of this.
#![tactic(auto)]

ghost use Rattle.std.specs.Prelude.{◌≡◌, true, false, List, Float, length, replicate};
ghost use Rattle.model.specs.declared.CfRule.{CfRule};
ghost use Rattle.model.specs.Ratio.{zero_f};
ghost use Rattle.model.specs.References.{unread};
ghost use Rattle.model.specs.Values.{sorted, midpoint};
ghost use Rattle.model.specs.Rule.{scale2, scale3, bar, mean};
ghost use Rattle.values.specs.Bounds.{bounds_of};
ghost use Rattle.ranks.specs.Finite.{all_finite};
ghost use Rattle.plans.specs.Plans.{takes_values, plan_of_values, orders_values, planned_of, plan_of_operands};

use comparison::uses_second;
use model::{CfRule, ConditionalComparison, ConditionalOperand, DvOp, Plan, Rgb, Test};
use readings::number::is_finite;
use values::{Bounds, average, midpoint, numeric_bounds, selected, sort, threshold};

// ---- by operands

// Whether parse_conditional_operand gives nothing. A literal that is not finite counts as unread.
#[tactic(auto, unfolding(model::specs::References::unread))]
pub fn unread(operand: ConditionalOperand) -> bool
    ensures { result ≡ unread operand }
{
    match operand {
        ConditionalOperand::Literal(x) => !is_finite(x),
        ConditionalOperand::Reference(_) => false,
        ConditionalOperand::Unread => true,
    }
}

// Port of the arm CfRule::CellIs up to its regions. The second operand is looked at only if the operator uses it.
#[tactic(auto, unfolding(crate::specs::Plans::plan_of_operands))]
fn cell_is(op: DvOp, first: ConditionalOperand, second: ConditionalOperand, fill: Rgb) -> Plan
    ensures { result ≡ plan_of_operands (CfRule.CellIs op first second fill) }
{
    if unread(first) || (uses_second(op) && unread(second)) {
        return Plan::Deferred;
    }
    Plan::Tested(Test::CellIs {
        op,
        first,
        second,
        fill,
    })
}

// Port of the arm CfRule::Expression up to its regions.
#[tactic(auto, unfolding(crate::specs::Plans::plan_of_operands))]
fn expression(
    op: ConditionalComparison,
    left: ConditionalOperand,
    right: ConditionalOperand,
    fill: Rgb,
) -> Plan
    ensures { result ≡ plan_of_operands (CfRule.Expression op left right fill) }
{
    if unread(left) || unread(right) {
        return Plan::Deferred;
    }
    Plan::Tested(Test::Expression {
        op,
        left,
        right,
        fill,
    })
}

// Port of the two arms that parse operands. The other kinds are skipped.
#[tactic(auto, unfolding(crate::specs::Plans::plan_of_operands))]
pub fn plan_of_operands(kind: CfRule) -> Plan
    ensures { result ≡ plan_of_operands kind }
{
    match kind {
        CfRule::CellIs {
            op,
            first,
            second,
            fill,
        } => cell_is(op, first, second, fill),
        CfRule::Expression {
            op,
            left,
            right,
            fill,
        } => expression(op, left, right, fill),
        _ => Plan::Skipped,
    }
}

// ---- by values

// Port of the arm CfRule::ColorScale2 up to its regions.
fn color_scale2(min: Rgb, max: Rgb, values: &[f64]) -> Plan
    ensures { result ≡ scale2 min max values.now }
{
    let Some(Bounds { least, greatest }) = numeric_bounds(values) else {
        return Plan::Skipped;
    };
    Plan::Tested(Test::ColorScale2 {
        min,
        max,
        least,
        greatest,
    })
}

// Port of the arm CfRule::ColorScale3 up to its regions, of values with these bounds and this midpoint.
fn color_scale3(min: Rgb, mid: Rgb, max: Rgb, bounds: Option<Bounds>, middle: f64) -> Plan
    ensures { (xs : List Float) → bounds ≡ bounds_of xs → middle ≡ midpoint (sorted xs) → result ≡ scale3 min mid max xs }
{
    let Some(Bounds { least, greatest }) = bounds else {
        return Plan::Skipped;
    };
    Plan::Tested(Test::ColorScale3 {
        min,
        mid,
        max,
        least,
        midpoint: middle,
        greatest,
    })
}

// The same, by values that are not moved.
fn color_scale3_of(min: Rgb, mid: Rgb, max: Rgb, values: &[f64]) -> Option<Plan>
    ensures { result ≡ planned_of (CfRule.ColorScale3 min mid max) values.now }
{
    let middle = ranks::midpoint(values)?;
    let bounds = numeric_bounds(values);
    Some(color_scale3(min, mid, max, bounds, middle))
}

// Port of the arm CfRule::DataBar up to its regions.
fn data_bar(color: Rgb, values: &[f64]) -> Plan
    ensures { result ≡ bar color values.now }
{
    let Some(Bounds { least, greatest }) = numeric_bounds(values) else {
        return Plan::Skipped;
    };
    Plan::Tested(Test::DataBar {
        color,
        least,
        greatest,
    })
}

// Port of the arm CfRule::TopBottom up to its regions, by values that are not moved.
fn top_bottom(number: u32, bottom: bool, percent: bool, fill: Rgb, values: &[f64]) -> Option<Plan>
    ensures { result ≡ planned_of (CfRule.TopBottom number bottom percent fill) values.now }
{
    let none = number == 0;
    if none || values.is_empty() {
        return Some(Plan::Skipped);
    }
    let threshold = ranks::threshold(bottom, selected(percent, number, values.len()), values)?;
    Some(Plan::Tested(Test::TopBottom {
        bottom,
        threshold,
        fill,
    }))
}

// Port of the arm CfRule::AboveAverage up to its regions. A sum that is not finite defers.
fn above_average(below: bool, fill: Rgb, values: &[f64]) -> Plan
    ensures { result ≡ mean below fill values.now }
{
    if values.is_empty() {
        return Plan::Skipped;
    }
    let Some(average) = average(values) else {
        return Plan::Deferred;
    };
    Plan::Tested(Test::AboveAverage {
        below,
        average,
        fill,
    })
}

// Whether the arm of this kind calls conditional_numeric_values.
#[tactic(auto, unfolding(crate::specs::Plans::takes_values))]
pub fn takes_values(kind: CfRule) -> bool
    ensures { result ≡ takes_values kind }
{
    matches!(
        kind,
        CfRule::ColorScale2 { .. }
            | CfRule::ColorScale3 { .. }
            | CfRule::DataBar { .. }
            | CfRule::TopBottom { .. }
            | CfRule::AboveAverage { .. }
    )
}

// Port of the five arms that call conditional_numeric_values, whose values these are, in sheet order. The other kinds are skipped. No value
// is moved or written: counting gives what stands at a place of the values in order, if they are all finite.
#[tactic(auto, unfolding(crate::specs::Plans::orders_values, crate::specs::Plans::plan_of_values, crate::specs::Plans::planned_of))]
pub fn plan_of_numbers(kind: CfRule, values: &[f64]) -> Option<Plan>
    ensures { result ≡ planned_of kind values.now }
{
    match kind {
        CfRule::ColorScale2 { min, max } => Some(color_scale2(min, max, values)),
        CfRule::ColorScale3 { min, mid, max } => color_scale3_of(min, mid, max, values),
        CfRule::DataBar { color } => Some(data_bar(color, values)),
        CfRule::TopBottom {
            rank,
            bottom,
            percent,
            fill,
        } => top_bottom(rank, bottom, percent, fill, values),
        CfRule::AboveAverage { below, fill } => Some(above_average(below, fill, values)),
        _ => Some(Plan::Skipped),
    }
}

// The two kinds that need the values in order, where counting does not tell. The bounds are taken ahead of sorting, which puts -0 before
// an earlier +0.
#[tactic(auto, unfolding(crate::specs::Plans::orders_values))]
fn plan_in_order(kind: CfRule, values: &mut [f64]) -> Plan
    requires kind_value { orders_values kind ≡ true }
    requires values_value { all_finite values.old ≡ false }
    ensures { result ≡ plan_of_values kind values.old }
{
    match kind {
        CfRule::ColorScale3 { min, mid, max } => {
            let bounds = numeric_bounds(values);
            sort(values);
            color_scale3(min, mid, max, bounds, midpoint(values))
        }
        CfRule::TopBottom {
            rank,
            bottom,
            percent,
            fill,
        } => {
            let count = selected(percent, rank, values.len());
            sort(values);
            let threshold = threshold(bottom, count, values);
            Plan::Tested(Test::TopBottom {
                bottom,
                threshold,
                fill,
            })
        }
        _ => Plan::Skipped,
    }
}

// The same as plan_of_numbers, of any values. They are scratch: they may be sorted on the way, and are left cleared.
pub fn plan_of_values(kind: CfRule, values: &mut [f64]) -> Plan
    ensures value { result ≡ plan_of_values kind values.old }
    ensures values_after { values.new ≡ replicate (length values.old) zero_f }
{
    let plan = match plan_of_numbers(kind, values) {
        Some(plan) => plan,
        None => plan_in_order(kind, values),
    };
    values.fill(0.0);
    plan
}
