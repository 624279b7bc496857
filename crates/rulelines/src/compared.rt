// The rule words that have operands.
ghost use Rattle.std.specs.Prelude.{◌≡◌};
ghost use Rattle.fields.specs.Room.{Room};
ghost use Rattle.jobtext.specs.Rules.{cell_is, expr};
ghost use Rattle.jobtext.specs.Laid.{kind_bytes};
ghost use Rattle.rulelines.specs.RuleWords.{kind_of, made_cell_is, made_expr};
ghost use Rattle.rulelines.specs.Lines.{laid_of, Pooled};
ghost use Rattle.rulelines.specs.Sides.{sides, sides_at, sides_bytes};

use crate::Laid;
use crate::operand::{read_operand, read_second};
use crate::parts::{comparison, dv_op, read_colour};
use comparison::uses_second;
use fields::Malformed;
use model::{CfRule, ConditionalOperand, Rgb};

// What stands behind an operator.
#[derive(Clone, Copy)]
struct Sides {
    first: ConditionalOperand,
    second: ConditionalOperand,
    fill: Rgb,
}

// Two operands, the second if it is used, and a colour.
#[tactic(auto, using(crate::proofs::Told::reads), unfolding(crate::specs::Sides::sides, crate::specs::Sides::sides_at, crate::specs::Sides::sides_bytes, grammar::specs::Parts::bytes))]
fn read_sides(
    s: &[u8],
    at: usize,
    uses: bool,
    pool: &mut [u8],
    used: usize,
) -> Result<Laid<Sides>, Malformed>
    requires { Room s.now at used }
    ensures sides { result ≡ laid_of sides_at sides_bytes ((sides uses).parse s.now at) used }
    ensures pooled { Pooled sides_bytes ((sides uses).parse s.now at) used pool.old pool.new }
{
    let first = read_operand(s, at, pool, used)?;
    let second = read_second(s, first.next, uses, pool, first.used)?;
    let fill = read_colour(s, second.next, b"\n")?;
    let value = Sides {
        first: first.value,
        second: second.value,
        fill: fill.value,
    };
    Ok(Laid {
        value,
        next: fill.next,
        used: second.used,
    })
}

#[tactic(auto, using(crate::proofs::Told::reads), unfolding(jobtext::specs::Rules::cell_is, jobtext::specs::Fields::dv_op, jobtext::specs::Laid::kind_at, jobtext::specs::Laid::kind_bytes, crate::specs::Sides::sides, crate::specs::Sides::sides_at, crate::specs::Sides::sides_bytes))]
pub(crate) fn read_cell_is(
    s: &[u8],
    at: usize,
    pool: &mut [u8],
    used: usize,
) -> Result<Laid<CfRule>, Malformed>
    requires { Room s.now at used }
    ensures kind { result ≡ kind_of (made_cell_is (cell_is.parse s.now at)) used }
    ensures pooled { Pooled kind_bytes (made_cell_is (cell_is.parse s.now at)) used pool.old pool.new }
{
    let number = fields::decimal(s, at, 7, b' ')?;
    let op = dv_op(number.value);
    let sides = read_sides(s, number.next, uses_second(op), pool, used)?;
    let value = CfRule::CellIs {
        op,
        first: sides.value.first,
        second: sides.value.second,
        fill: sides.value.fill,
    };
    Ok(Laid {
        value,
        next: sides.next,
        used: sides.used,
    })
}

#[tactic(auto, using(crate::proofs::Told::reads), unfolding(jobtext::specs::Rules::expr, jobtext::specs::Fields::comparison, jobtext::specs::Laid::kind_at, jobtext::specs::Laid::kind_bytes, crate::specs::Sides::sides, crate::specs::Sides::sides_at, crate::specs::Sides::sides_bytes))]
pub(crate) fn read_expr(
    s: &[u8],
    at: usize,
    pool: &mut [u8],
    used: usize,
) -> Result<Laid<CfRule>, Malformed>
    requires { Room s.now at used }
    ensures kind { result ≡ kind_of (made_expr (expr.parse s.now at)) used }
    ensures pooled { Pooled kind_bytes (made_expr (expr.parse s.now at)) used pool.old pool.new }
{
    let number = fields::decimal(s, at, 5, b' ')?;
    let op = comparison(number.value);
    let sides = read_sides(s, number.next, true, pool, used)?;
    let value = CfRule::Expression {
        op,
        left: sides.value.first,
        right: sides.value.second,
        fill: sides.value.fill,
    };
    Ok(Laid {
        value,
        next: sides.next,
        used: sides.used,
    })
}
