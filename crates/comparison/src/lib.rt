// Comparison: the operators of a cell-is rule and of an expression, over any f64.
#![tactic(auto)]

ghost use Rattle.std.specs.Prelude.{◌≡◌};
ghost use Rattle.model.specs.Comparison.{uses_second, compare_conditional, compare};

use model::{ConditionalComparison, DvOp};

// Whether a cell-is rule with this operator reads its second operand.
#[tactic(auto, unfolding(model::specs::Comparison::uses_second))]
pub fn uses_second(op: DvOp) -> bool
    ensures { result ≡ uses_second op }
{
    matches!(op, DvOp::Between | DvOp::NotBetween)
}

// Port of compare_conditional (conditional.rs). Between includes both ends, and without a second number neither it nor NotBetween holds.
#[tactic(auto, unfolding(model::specs::Comparison::compare_conditional, model::specs::Comparison::between, model::specs::Comparison::not_between))]
pub fn compare_conditional(value: f64, op: DvOp, first: f64, second: Option<f64>) -> bool
    ensures { result ≡ compare_conditional value op first second }
{
    match op {
        DvOp::Between => second.is_some_and(|second| first <= value && value <= second),
        DvOp::NotBetween => second.is_some_and(|second| value < first || value > second),
        DvOp::Equal => value == first,
        DvOp::NotEqual => value != first,
        DvOp::GreaterThan => value > first,
        DvOp::LessThan => value < first,
        DvOp::GreaterThanOrEqual => value >= first,
        DvOp::LessThanOrEqual => value <= first,
    }
}

// Port of ConditionalComparison::compare (conditional.rs).
#[tactic(auto, unfolding(model::specs::Comparison::compare))]
pub fn compare(op: ConditionalComparison, left: f64, right: f64) -> bool
    ensures { result ≡ compare op left right }
{
    match op {
        ConditionalComparison::Equal => left == right,
        ConditionalComparison::NotEqual => left != right,
        ConditionalComparison::Less => left < right,
        ConditionalComparison::LessOrEqual => left <= right,
        ConditionalComparison::Greater => left > right,
        ConditionalComparison::GreaterOrEqual => left >= right,
    }
}
