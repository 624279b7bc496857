// Check 5: names and texts outside the pool.
ghost use Rattle.std.specs.Prelude.{◌≡◌, take};
ghost use Rattle.model.specs.Job.{outside as isOutside, bad_name, bad_operand, bad_kind, first_bad_rule};
ghost use Rattle.checks.specs.Checked.{found};

use comparison::uses_second;
use model::{CfRule, ConditionalOperand, Rules, Span};

// Whether a text runs past the pool's end. Two u32 added as usize do not wrap.
#[tactic(auto, unfolding(model::specs::Job::outside))]
pub fn outside(pool: &[u8], span: Span) -> bool
    ensures { result ≡ isOutside pool.now span }
{
    pool.len() < (span.at as usize) + (span.len as usize)
}

#[tactic(auto, unfolding(model::specs::Job::bad_name))]
fn bad_name(pool: &[u8], name: Option<Span>) -> bool
    ensures { result ≡ bad_name pool.now name }
{
    name.is_some_and(|span| outside(pool, span))
}

#[tactic(auto, unfolding(model::specs::Job::bad_operand))]
fn bad_operand(pool: &[u8], operand: ConditionalOperand) -> bool
    ensures { result ≡ bad_operand pool.now operand }
{
    match operand {
        ConditionalOperand::Reference(reference) => bad_name(pool, reference.sheet),
        ConditionalOperand::Literal(_) | ConditionalOperand::Unread => false,
    }
}

// A used reference's name outside the pool.
#[tactic(auto, unfolding(model::specs::Job::bad_kind))]
fn bad_kind(pool: &[u8], kind: CfRule) -> bool
    ensures { result ≡ bad_kind pool.now kind }
{
    match kind {
        CfRule::CellIs {
            op,
            first,
            second,
            ..
        } => bad_operand(pool, first) || uses_second(op) && bad_operand(pool, second),
        CfRule::Expression { left, right, .. } => bad_operand(pool, left)
            || bad_operand(pool, right),
        _ => false,
    }
}

// Check 5 of the rules: the first that uses a reference whose name lies outside the pool.
pub fn first_bad_rule(pool: &[u8], rules: &Rules) -> Option<usize>
    ensures { result ≡ found (first_bad_rule pool.now 0 (take rules.now.number rules.now.records)) }
{
    rules
        .declared()
        .iter()
        .position(|rule| bad_kind(pool, rule.kind))
}
