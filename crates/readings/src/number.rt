// The number that a cell has.
ghost use Rattle.std.specs.Prelude.{◌≡◌};
ghost use Rattle.std.specs.Float.{binary64};
ghost use Rattle.std.specs.Float.Ieee.{of_bits};
ghost use Rattle.model.specs.Readings.{finite, numeric_cell_value};
ghost use Rattle.model.specs.References.{literal};
ghost use Rattle.model.specs.Sheet.{value_of};

use model::{Cell, CellValue, Span};

// Neither not-a-number nor infinite.
#[tactic(auto, using(crate::proofs::Bytes::finite_is))]
pub fn is_finite(x: f64) -> bool
    ensures { result ≡ finite x }
{
    x.is_finite()
}

// The number of a bit pattern. Every pattern of a not-a-number is the one that there is.
pub fn float_of_bits(bits: u64) -> f64
    ensures { result ≡ of_bits binary64 bits }
{
    if bits % 0x8000_0000_0000_0000 > 0x7ff0_0000_0000_0000 {
        return 0.0 / 0.0;
    }
    f64::from_bits(bits)
}

// The value of a cell from its columns. An unknown kind gives an error.
#[tactic(auto, unfolding(model::specs::Sheet::value_of))]
pub fn cell_value(kind: u8, bits: u64, at: u32, len: u32) -> CellValue
    ensures { result ≡ value_of kind bits at len }
{
    match kind {
        1 => CellValue::Number(float_of_bits(bits)),
        2 => CellValue::Date(float_of_bits(bits)),
        3 => CellValue::Text(Span { at, len }),
        4 => CellValue::Bool(len == 1),
        _ => CellValue::Error,
    }
}

// What a number reads as: a non-finite one as nothing.
#[tactic(auto, using(crate::proofs::Bytes::then_is), unfolding(model::specs::References::literal))]
pub fn finite_reading(x: f64) -> Option<f64>
    ensures { result ≡ literal x }
{
    is_finite(x).then_some(x)
}

// Port of numeric_cell_value (conditional.rs).
#[tactic(auto, unfolding(model::specs::Readings::numeric_cell_value, model::specs::Readings::numeric_value, model::specs::References::literal))]
pub fn numeric_cell_value(cell: Cell) -> Option<f64>
    ensures { result ≡ numeric_cell_value cell }
{
    if cell.wraps > 64 {
        return None;
    }
    match cell.value {
        CellValue::Number(x) | CellValue::Date(x) => finite_reading(x),
        CellValue::Text(_) | CellValue::Bool(_) | CellValue::Error => None,
    }
}
