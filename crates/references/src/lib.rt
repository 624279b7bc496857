// References: the cell that an operand means from a region (document 01, 'References').
#![tactic(auto)]

ghost use Rattle.std.specs.Prelude.{ℕ, ◌<◌, ◌^◌, ◌≡◌};
ghost use Rattle.model.specs.References.{offset_axis, axis as axisOf, same_name, names_sheet, joined as joinedOf, reference_coordinate};

use model::{A1Reference, CellCoordinate, Range, Span};
use readings::text::{is_ascii, same_bytes, same_letters, text_at};

const MAX_WORKSHEET_ROW: u32 = 1_048_575;

const MAX_WORKSHEET_COLUMN: u32 = 16_383;

// Port of offset_a1_axis (conditional.rs), over u32 arguments.
#[tactic(auto, unfolding(model::specs::References::offset_axis))]
pub fn offset_a1_axis(target: u32, reference: u32, origin: u32, maximum: u32) -> Option<u32>
    ensures { result ≡ offset_axis target reference origin maximum }
{
    let sum = u64::from(target) + u64::from(reference);
    let value = sum.checked_sub(u64::from(origin))?;
    u32::try_from(value).ok().filter(|value| *value <= maximum)
}

// An absolute axis is unchecked.
#[tactic(auto, unfolding(model::specs::References::axis))]
pub fn axis(absolute: bool, target: u32, reference: u32, origin: u32, maximum: u32) -> Option<u32>
    ensures { result ≡ axisOf absolute target reference origin maximum }
{
    if absolute {
        Some(reference)
    } else {
        offset_a1_axis(target, reference, origin, maximum)
    }
}

// Equal bytes, or both ASCII and equal without regard to case. Letters are compared first, so that a name of another length costs nothing.
#[tactic(auto, unfolding(model::specs::References::same_name))]
pub fn same_name(a: &[u8], b: &[u8]) -> bool
    ensures { result ≡ same_name a.now b.now }
{
    same_bytes(a, b) || same_letters(a, b) && is_ascii(a) && is_ascii(b)
}

// Whether a reference's name is this sheet's.
#[tactic(auto, unfolding(model::specs::References::names_sheet))]
pub fn names_sheet(name: Option<Span>, pool: &[u8], sheet: Span) -> bool
    ensures { result ≡ names_sheet pool.now sheet name }
{
    match name {
        None => true,
        Some(span) => same_name(text_at(pool, span), text_at(pool, sheet)),
    }
}

// The cell where two axes meet, if both are accepted.
#[tactic(auto, unfolding(model::specs::References::joined))]
fn joined(row: Option<u32>, col: Option<u32>) -> Option<CellCoordinate>
    requires { (v : ℕ) → col ≡ Some v → v < 2 ^ 16 }
    ensures { result ≡ joinedOf row col }
{
    let row = row?;
    let col = col?;
    Some(CellCoordinate {
        row,
        col: col as u16,
    })
}

// Port of conditional_reference_coordinate (conditional.rs). The origin is the range's first cell.
#[tactic(auto, unfolding(model::specs::References::reference_coordinate))]
pub fn conditional_reference_coordinate(
    reference: A1Reference,
    range: Range,
    target: CellCoordinate,
    pool: &[u8],
    sheet: Span,
) -> Option<CellCoordinate>
    ensures { result ≡ reference_coordinate pool.now sheet range target reference }
{
    if !names_sheet(reference.sheet, pool, sheet) {
        return None;
    }
    let row = axis(
        reference.row_absolute,
        target.row,
        reference.row,
        range.top,
        MAX_WORKSHEET_ROW,
    );
    let col = axis(
        reference.col_absolute,
        u32::from(target.col),
        u32::from(reference.col),
        u32::from(range.left),
        MAX_WORKSHEET_COLUMN,
    );
    joined(row, col)
}
