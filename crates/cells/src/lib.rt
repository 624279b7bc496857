// The cell at an index of the cell columns. Tables of places, which name cells by their indices, are defined beside it.
#![tactic(auto)]

ghost use Rattle.std.specs.Prelude.{ℕ, ◌≡◌, List};
ghost use Rattle.model.specs.Sheet.{cell_from};
ghost use Rattle.cells.specs.Columns.{columns};

use model::Cell;
use readings::number::cell_value;

// The cell at an index, wherever it stands.
#[tactic(auto, unfolding(model::specs::Sheet::cell_from))]
pub fn cell_from(
    kinds: &[u8],
    wraps: &[u8],
    nums: &[u64],
    ats: &[u32],
    lens: &[u32],
    i: usize,
) -> Cell
    ensures { (rows cols : List ℕ) → result ≡ (cell_from (columns rows cols kinds.now wraps.now
        nums.now ats.now lens.now) i).cell }
{
    Cell {
        value: cell_value(
            lent::at(kinds, i, 0),
            lent::at(nums, i, 0),
            lent::at(ats, i, 0),
            lent::at(lens, i, 0),
        ),
        wraps: lent::at(wraps, i, 0),
    }
}
