// Colours, priorities and operators.
ghost use Rattle.std.specs.Prelude.{◌≡◌};
ghost use Rattle.jobtext.specs.Fields.{colour, priority, to_dv_op, to_comparison};
ghost use Rattle.rulelines.specs.Lines.{placed_of};

use crate::Placed;
use fields::Malformed;
use model::{ConditionalComparison, DvOp, Rgb};

#[tactic(auto, using(crate::proofs::Told::reads), unfolding(jobtext::specs::Fields::colour))]
pub(crate) fn read_colour(s: &[u8], at: usize, end: &[u8]) -> Result<Placed<Rgb>, Malformed>
    ensures { result ≡ placed_of ((colour end.now).parse s.now at) }
{
    let red = fields::channel(s, at)?;
    let green = fields::channel(s, red.next)?;
    let blue = fields::channel(s, green.next)?;
    let next = fields::word(s, blue.next, end)?;
    let value = Rgb {
        red: red.value as u8,
        green: green.value as u8,
        blue: blue.value as u8,
    };
    Ok(Placed { value, next })
}

#[tactic(auto, using(crate::proofs::Told::reads), unfolding(jobtext::specs::Fields::priority, grammar::specs::Parts::bytes))]
pub(crate) fn read_priority(s: &[u8], at: usize) -> Result<Placed<Option<u32>>, Malformed>
    ensures { result ≡ placed_of (priority.parse s.now at) }
{
    if let Ok(next) = fields::byte(s, at, b'-') {
        let next = fields::byte(s, next, b' ')?;
        return Ok(Placed { value: None, next });
    }
    let number = fields::decimal(s, at, 4294967295, b' ')?;
    Ok(Placed {
        value: Some(number.value as u32),
        next: number.next,
    })
}

// The operator of a number that is at most 7.
pub(crate) fn dv_op(number: u64) -> DvOp
    ensures { result ≡ to_dv_op number }
{
    DvOp::try_from(number).unwrap_or(DvOp::LessThanOrEqual)
}

// The operator of a number that is at most 5.
pub(crate) fn comparison(number: u64) -> ConditionalComparison
    ensures { result ≡ to_comparison number }
{
    ConditionalComparison::try_from(number).unwrap_or(ConditionalComparison::GreaterOrEqual)
}
