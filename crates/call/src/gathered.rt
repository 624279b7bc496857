// The numbers of the cells in range: conditional_numeric_values (conditional.rs) without its charges.
ghost use Rattle.std.specs.Prelude.{ℕ, suc, ◌≤◌, ◌-◌, ◌≡◌, true, cond, length, take};
ghost use mathlib.Core.List.{List, foldr};
ghost use Rattle.std.proofs.Math.Option.{none};
ghost use Rattle.std.specs.Float.Ieee.{eq};
ghost use Rattle.model.specs.Job.{first_fall};
ghost use Rattle.model.specs.Rule.{cells_in, numbers};
ghost use Rattle.cells.specs.Columns.{columns, cells_of};
ghost use Rattle.turns.specs.Bands.{BandOf};
ghost use Rattle.call.specs.Tables.{Numbered, AllNumbers, NumbersIn};

use crate::Band;
use crate::bands::next_in;
use model::Range;

// How many numbers the cells in range have, and the numbers in sheet order at the front of `values`. Each float is stored, and stays only
// if it is a number. From a cell out of range the way to the next that is in it is as long as it was from row to row before.
pub(crate) fn gather(
    range: Range,
    band: Band,
    rows: &[u32],
    cols: &[u16],
    floats: &[f64],
    values: &mut [f64],
) -> usize
    requires { (first_fall rows.now cols.now ≡ none) × (length rows.now ≤ length cols.now) × (band.from ≤ band.to)
        × (band.to ≤ length rows.now) × (band.to ≤ length floats.now) × (band.to - band.from ≤ length values.old) }
    ensures few { result ≤ length values.old }
    ensures values { (kinds wraps nums ats lens : List ℕ) → BandOf range rows.now band.from band.to
        → Numbered (columns rows.now cols.now kinds wraps nums ats lens) floats.now
        → take result values.new ≡ numbers (cells_in range (cells_of (columns rows.now cols.now kinds wraps nums
        ats lens))) }
{
    let to = band.to;
    let mut count = 0;
    let mut gap = 0;
    let mut start = band.from;
    let mut i = start;
    // the index jumps: out of range it goes on at the next cell in range
    while i < to {
        let col = cols[i];
        if (range.left <= col) & (col <= range.right) {
            let x = floats[i];
            values[count] = x;
            count += (x == x) as usize;
            i += 1;
            start = i;
            continue;
        }
        let next = next_in(range, rows, cols, i, to, gap);
        gap = next - start;
        i = next;
    }
    count
}

// How many floats are numbers.
fn count_numbers(floats: &[f64]) -> u64
    ensures { result ≡ foldr (λ x later. cond (eq x x) (suc later) later) 0 floats.now }
{
    let mut count = 0;
    for x in floats {
        count += (*x == *x) as u64;
    }
    count
}

// Whether all floats are numbers. They are counted in a loop without a way out, so that several are looked at in one step.
pub(crate) fn all_numeric(floats: &[f64]) -> bool
    ensures { result ≡ true → AllNumbers floats.now }
{
    count_numbers(floats) == floats.len() as u64
}

// Whether the numbers in range are the floats of a band: each cell of it is in range and has a number. The floats are looked at only where it
// is not told of all cells that they have numbers.
pub(crate) fn are_values(inside: usize, numeric: bool, band: Band, floats: &[f64]) -> bool
    requires { (band.from ≤ band.to) × (band.to ≤ length floats.now) × (numeric ≡ true → AllNumbers floats.now) }
    ensures { result ≡ true → (inside ≡ band.to - band.from) × NumbersIn band.from band.to floats.now }
{
    let from = band.from;
    let to = band.to;
    if inside != to - from {
        return false;
    }
    if numeric {
        return true;
    }
    all_numeric(&floats[from..to])
}
