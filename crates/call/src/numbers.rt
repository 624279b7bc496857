// The numbers of the cells and of the regions' cells, worked out once for a job. A cell without a number has not-a-number.
ghost use Rattle.std.specs.Prelude.{ℕ, ◌≤◌, ◌<◌, ◌≡◌, List, length, get_or};
ghost use Rattle.std.specs.Float.{nan};
ghost use Rattle.model.specs.Sheet.{cell_from};
ghost use Rattle.model.specs.Readings.{numeric_cell_value};
ghost use Rattle.cells.specs.Columns.{columns};
ghost use Rattle.hits.specs.Said.{as_float};
ghost use Rattle.call.specs.Tables.{cell_of, number_named};

use crate::stores::fill_each;
use cells::cell_from;
use readings::number::numeric_cell_value;

pub(crate) fn float_of(reading: Option<f64>) -> f64
    ensures { result ≡ as_float reading }
{
    reading.unwrap_or(f64::NAN)
}

// The number of a cell from the entries of its columns: that of a number or a date in at most 64 wraps, if it is finite. The exponent
// 2047 is that of the infinities and of not-a-number.
fn number_of(kind: u8, wraps: u8, bits: u64) -> f64
    ensures { (at len : ℕ) → result ≡ as_float (numeric_cell_value (cell_of kind wraps bits at len)) }
{
    let exponent = bits % 0x8000_0000_0000_0000 / 0x10_0000_0000_0000;
    if ((kind == 1) | (kind == 2)) & (wraps <= 64) & (exponent != 2047) {
        return f64::from_bits(bits);
    }
    f64::NAN
}

// The number of the cell at an index, by columns of any length.
fn number_at(kinds: &[u8], wraps: &[u8], nums: &[u64], ats: &[u32], lens: &[u32], i: usize) -> f64
    ensures { (rows cols : List ℕ) → result ≡ as_float (numeric_cell_value (cell_from (columns rows cols kinds.now
        wraps.now nums.now ats.now lens.now) i).cell) }
{
    let cell = cell_from(kinds, wraps, nums, ats, lens, i);
    float_of(numeric_cell_value(cell))
}

// The numbers of as many cells as there is room for.
pub(crate) fn number_cells(
    kinds: &[u8],
    wraps: &[u8],
    nums: &[u64],
    ats: &[u32],
    lens: &[u32],
    floats: &mut [f64],
)
    ensures { (rows cols : List ℕ) (i : ℕ) → i < length floats.old → get_or floats.new i nan
        ≡ as_float (numeric_cell_value (cell_from (columns rows cols kinds.now wraps.now nums.now
        ats.now lens.now) i).cell) }
{
    let n = floats.len();
    if n <= kinds.len() && n <= wraps.len() && n <= nums.len() {
        // There is no branch, so that the compiler reads several cells at once.
        fill_each(floats, |i| number_of(kinds[i], wraps[i], nums[i]));
        return;
    }
    fill_each(floats, |i| number_at(kinds, wraps, nums, ats, lens, i));
}

// The number of the cell that an entry of a table of places names.
pub(crate) fn number_named(floats: &[f64], entry: u16) -> f64
    ensures { result ≡ number_named floats.now entry }
{
    if entry == 0 {
        return f64::NAN;
    }
    lent::at(floats, entry as usize - 1, f64::NAN)
}

// The numbers of the cells that a table of places names, for as many regions as there is room for.
pub(crate) fn number_regions(places: &[u16], floats: &[f64], values: &mut [f64])
    ensures { (i : ℕ) → i < length values.old
        → get_or values.new i nan ≡ number_named floats.now (get_or places.now i 0) }
{
    fill_each(values, |i| number_named(floats, lent::at(places, i, 0)));
}
