// The key by which duplicates are told. A text stays where it is in the pool.
ghost use Rattle.std.specs.Prelude.{◌≡◌, true, cond};
ghost use Rattle.model.specs.Readings.{finite, key_bits, key_of_value, conditional_value_key, same_key};

use crate::number::is_finite;
use crate::text::{is_plain, same_letters, text_at};
use model::{Cell, CellValue, ConditionalValueKey, Span};

// The bits of a number, -0 taken as +0.
#[tactic(auto, unfolding(model::specs::Readings::key_bits))]
fn key_bits(x: f64) -> u64
    requires { finite x ≡ true }
    ensures { result ≡ key_bits x }
{
    let bits = x.to_bits();
    if bits == 0x8000_0000_0000_0000 {
        0
    } else {
        bits
    }
}

fn number_key(x: f64) -> Option<ConditionalValueKey>
    ensures { result ≡ cond (finite x) (Some (ConditionalValueKey.Number (key_bits x))) None }
{
    if is_finite(x) {
        Some(ConditionalValueKey::Number(key_bits(x)))
    } else {
        None
    }
}

#[tactic(auto, using(crate::proofs::Bytes::then_is), unfolding(model::specs::Readings::key_of_value))]
fn text_key(span: Span, pool: &[u8]) -> Option<ConditionalValueKey>
    ensures { result ≡ key_of_value pool.now (CellValue.Text span) }
{
    is_plain(text_at(pool, span)).then_some(ConditionalValueKey::Text(span))
}

// Port of conditional_value_key (conditional.rs).
#[tactic(auto, unfolding(model::specs::Readings::conditional_value_key, model::specs::Readings::key_of_value))]
pub fn conditional_value_key(cell: Cell, pool: &[u8]) -> Option<ConditionalValueKey>
    ensures { result ≡ conditional_value_key pool.now cell }
{
    if cell.wraps > 64 {
        return None;
    }
    match cell.value {
        CellValue::Number(x) | CellValue::Date(x) => number_key(x),
        CellValue::Text(span) => text_key(span, pool),
        CellValue::Bool(b) => Some(ConditionalValueKey::Bool(b)),
        CellValue::Error => None,
    }
}

// `==` of two keys in place. No key is the same as none.
#[tactic(auto, unfolding(model::specs::Readings::same_key))]
pub fn same_key(a: Option<ConditionalValueKey>, b: Option<ConditionalValueKey>, pool: &[u8]) -> bool
    ensures { result ≡ same_key pool.now a b }
{
    match (a, b) {
        (Some(ConditionalValueKey::Number(x)), Some(ConditionalValueKey::Number(y))) => x == y,
        (Some(ConditionalValueKey::Text(s)), Some(ConditionalValueKey::Text(t))) => {
            same_letters(text_at(pool, s), text_at(pool, t))
        }
        (Some(ConditionalValueKey::Bool(x)), Some(ConditionalValueKey::Bool(y))) => x == y,
        _ => false,
    }
}
