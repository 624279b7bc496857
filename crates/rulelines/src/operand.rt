// Operands of a rule word: numbers and references, with the names of references into a lent pool.
ghost use Rattle.std.specs.Prelude.{◌≡◌};
ghost use Rattle.fields.specs.Room.{Room};
ghost use Rattle.jobtext.specs.Fields.{reference_name, reference, operand};
ghost use Rattle.jobtext.specs.Rules.{second_if};
ghost use Rattle.jobtext.specs.Laid.{name_bytes, name_at, reference_at, operand_bytes, operand_at};
ghost use Rattle.rulelines.specs.Lines.{placed_of, laid_of, bits_field, number_of, Pooled, reference_bytes};

use crate::{Laid, Placed};
use fields::Malformed;
use model::{A1Reference, ConditionalOperand, Span};
use readings::number::{float_of_bits, is_finite};

#[tactic(auto, using(crate::proofs::Told::reads), unfolding(jobtext::specs::Fields::reference_name, jobtext::specs::Fields::text_field, jobtext::specs::Laid::name_at, jobtext::specs::Laid::name_bytes, grammar::specs::Parts::bytes))]
fn read_name(
    s: &[u8],
    at: usize,
    pool: &mut [u8],
    used: usize,
) -> Result<Laid<Option<Span>>, Malformed>
    requires { Room s.now at used }
    ensures name { result ≡ laid_of name_at name_bytes (reference_name.parse s.now at) used }
    ensures pooled { Pooled name_bytes (reference_name.parse s.now at) used pool.old pool.new }
{
    if let Ok(next) = fields::byte(s, at, b'-') {
        let next = fields::byte(s, next, b' ')?;
        return Ok(Laid {
            value: None,
            next,
            used,
        });
    }
    let mark = fields::byte(s, at, b't')?;
    let name = fields::text(s, mark, b' ', pool, used)?;
    let span = Span {
        at: used as u32,
        len: name.length as u32,
    };
    Ok(Laid {
        value: Some(span),
        next: name.next,
        used: used + name.length,
    })
}

// The number behind an `n`, which has to be finite.
#[tactic(auto, using(crate::proofs::Told::reads), unfolding(crate::specs::Lines::bits_field, jobtext::specs::Fields::finite_bits, grammar::specs::Parts::bytes))]
fn read_literal(s: &[u8], at: usize) -> Result<Placed<f64>, Malformed>
    ensures { result ≡ placed_of (number_of (bits_field.parse s.now at)) }
{
    let bits = fields::bits(s, at, b' ')?;
    let value = float_of_bits(bits.value);
    if !is_finite(value) {
        return Err(Malformed { at });
    }
    Ok(Placed {
        value,
        next: bits.next,
    })
}

#[tactic(auto, using(crate::proofs::Told::reads), unfolding(jobtext::specs::Fields::reference, jobtext::specs::Laid::reference_at, crate::specs::Lines::reference_bytes))]
fn read_reference(
    s: &[u8],
    at: usize,
    pool: &mut [u8],
    used: usize,
) -> Result<Laid<A1Reference>, Malformed>
    requires { Room s.now at used }
    ensures reference { result ≡ laid_of reference_at reference_bytes (reference.parse s.now at) used }
    ensures pooled { Pooled reference_bytes (reference.parse s.now at) used pool.old pool.new }
{
    let row = fields::decimal(s, at, 4294967295, b',')?;
    let col = fields::decimal(s, row.next, 65535, b',')?;
    let absolute = fields::decimal(s, col.next, 3, b',')?;
    let sheet = read_name(s, absolute.next, pool, used)?;
    let value = A1Reference {
        sheet: sheet.value,
        row: row.value as u32,
        col: col.value as u16,
        row_absolute: absolute.value % 2 == 1,
        col_absolute: 2 <= absolute.value,
    };
    Ok(Laid {
        value,
        next: sheet.next,
        used: sheet.used,
    })
}

#[tactic(auto, using(crate::proofs::Told::reads), unfolding(jobtext::specs::Fields::operand, jobtext::specs::Laid::operand_at, jobtext::specs::Laid::operand_bytes, crate::specs::Lines::bits_field, crate::specs::Lines::reference_bytes, grammar::specs::Parts::bytes))]
pub(crate) fn read_operand(
    s: &[u8],
    at: usize,
    pool: &mut [u8],
    used: usize,
) -> Result<Laid<ConditionalOperand>, Malformed>
    requires { Room s.now at used }
    ensures operand { result ≡ laid_of operand_at operand_bytes (operand.parse s.now at) used }
    ensures pooled { Pooled operand_bytes (operand.parse s.now at) used pool.old pool.new }
{
    if let Ok(next) = fields::byte(s, at, b'n') {
        let number = read_literal(s, next)?;
        return Ok(Laid {
            value: ConditionalOperand::Literal(number.value),
            next: number.next,
            used,
        });
    }
    if let Ok(next) = fields::byte(s, at, b'r') {
        let reference = read_reference(s, next, pool, used)?;
        return Ok(Laid {
            value: ConditionalOperand::Reference(reference.value),
            next: reference.next,
            used: reference.used,
        });
    }
    let next = fields::word(s, at, b"u ")?;
    Ok(Laid {
        value: ConditionalOperand::Unread,
        next,
        used,
    })
}

// A second operand, or `-` where the operator uses none.
#[tactic(auto, using(crate::proofs::Told::reads), unfolding(jobtext::specs::Laid::operand_at, jobtext::specs::Laid::operand_bytes, grammar::specs::Parts::bytes))]
pub(crate) fn read_second(
    s: &[u8],
    at: usize,
    uses: bool,
    pool: &mut [u8],
    used: usize,
) -> Result<Laid<ConditionalOperand>, Malformed>
    requires { Room s.now at used }
    ensures operand { result ≡ laid_of operand_at operand_bytes ((second_if uses).parse s.now at) used }
    ensures pooled { Pooled operand_bytes ((second_if uses).parse s.now at) used pool.old pool.new }
{
    if uses {
        return read_operand(s, at, pool, used);
    }
    let next = fields::word(s, at, b"- ")?;
    Ok(Laid {
        value: ConditionalOperand::Unread,
        next,
        used,
    })
}
