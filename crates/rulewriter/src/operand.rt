// Operands as text: the bits of a finite number, a reference with its name's bytes, or `u`.
ghost use Rattle.std.specs.Prelude.{◌≡◌, true, cond};
ghost use Rattle.std.specs.Float.{binary64};
ghost use Rattle.std.specs.Float.Ieee.{to_bits};
ghost use Rattle.model.specs.Readings.{finite};
ghost use Rattle.jobtext.specs.Written.{Operand};
ghost use Rattle.jobtext.specs.Fields.{reference_name, reference, operand as operandGram};
ghost use Rattle.jobtext.specs.Rules.{second_if};
ghost use Rattle.jobtext.specs.Said.{name_said, reference_said, operand_said};
ghost use Rattle.put.specs.Put.{Puts};

use crate::parts::absolute_code;
use model::{A1Reference, ConditionalOperand, Span};
use put::Cursor;
use readings::number::is_finite;
use readings::text::text_at;

// The bits of a finite number, -0 apart from +0.
fn put_literal(text: &mut Cursor<'_>, x: f64)
    ensures { Puts text.old
        (operandGram.text (cond (finite x) (Operand.literal (to_bits binary64 x)) Operand.unread)) text.new }
{
    if is_finite(x) {
        text.put_byte(b'n');
        text.put_hex(16, x.to_bits());
        text.put_byte(b' ')
    } else {
        text.put_bytes(b"u ")
    }
}

#[tactic(auto, unfolding(grammar::specs::Parts::bytes, jobtext::specs::Fields::reference_name, jobtext::specs::Said::name_said, jobtext::specs::Fields::text_field))]
fn put_name(text: &mut Cursor<'_>, pool: &[u8], name: Option<Span>)
    ensures { Puts text.old (reference_name.text (name_said pool.now name)) text.new }
{
    match name {
        None => text.put_bytes(b"- "),
        Some(span) => text.put_text(text_at(pool, span), b' '),
    }
}

fn put_reference(text: &mut Cursor<'_>, pool: &[u8], a: A1Reference)
    ensures { Puts text.old (reference.text (reference_said pool.now a)) text.new }
{
    text.put_number(a.row as u64, b',');
    text.put_number(a.col as u64, b',');
    text.put_number(absolute_code(a.row_absolute, a.col_absolute), b',');
    put_name(text, pool, a.sheet);
}

pub(crate) fn put_operand(text: &mut Cursor<'_>, pool: &[u8], operand: ConditionalOperand)
    ensures { Puts text.old (operandGram.text (operand_said pool.now operand)) text.new }
{
    match operand {
        ConditionalOperand::Literal(x) => put_literal(text, x),
        ConditionalOperand::Reference(a) => {
            text.put_byte(b'r');
            put_reference(text, pool, a)
        }
        ConditionalOperand::Unread => text.put_bytes(b"u "),
    }
}

// The second operand of `cellis`, `-` where the operator does not use it.
#[tactic(auto, unfolding(grammar::specs::Parts::bytes, jobtext::specs::Rules::second_if))]
pub(crate) fn put_second(
    text: &mut Cursor<'_>,
    pool: &[u8],
    used: bool,
    operand: ConditionalOperand,
)
    ensures { Puts text.old
        ((second_if used).text (cond used (operand_said pool.now operand) Operand.unread)) text.new }
{
    if used {
        put_operand(text, pool, operand)
    } else {
        text.put_bytes(b"- ")
    }
}
