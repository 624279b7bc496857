// What is in a rule's range: whether a coordinate is, and how many coordinates are.
#![tactic(auto)]

ghost use Rattle.std.specs.Prelude.{suc, ◌-◌, ◌≡◌};
ghost use Rattle.model.specs.Sheet.{in_range, upright, within_grid, area};

use model::{CellCoordinate, Range};

// Port of coordinate_in_range (conditional.rs).
#[tactic(auto, unfolding(model::specs::Sheet::in_range))]
pub fn in_range(range: Range, at: CellCoordinate) -> bool
    ensures { result ≡ in_range range at }
{
    range.top <= at.row && at.row <= range.bottom && range.left <= at.col && at.col <= range.right
}

// No first row or column past its last.
#[tactic(auto, unfolding(model::specs::Sheet::upright))]
pub fn upright(range: Range) -> bool
    ensures { result ≡ upright range }
{
    range.top <= range.bottom && range.left <= range.right
}

#[tactic(auto, unfolding(model::specs::Sheet::within_grid))]
pub fn within_grid(range: Range) -> bool
    ensures { result ≡ within_grid range }
{
    range.bottom <= 1_048_575 && range.right <= 16_383
}

// How many numbers there are from the first to the last, and one where the first is past the last.
fn extent(first: u32, last: u32) -> u64
    ensures { result ≡ suc (last - first) }
{
    u64::from(last.saturating_sub(first)) + 1
}

// How many coordinates an upright range has.
#[tactic(auto, unfolding(model::specs::Sheet::area))]
pub fn area(range: Range) -> u64
    ensures { result ≡ area range }
{
    extent(range.top, range.bottom) * extent(u32::from(range.left), u32::from(range.right))
}
