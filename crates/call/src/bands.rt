// The band of a rule's range among the cells or the regions, which rise, how many cells of it are in range, and the way from one that is
// in range to the next.
ghost use Rattle.std.specs.Prelude.{ℕ, ◌+◌, ◌<◌, ◌≤◌, ◌≡◌, true, false, List, length, get_or};
ghost use Rattle.std.proofs.Math.Option.{none};
ghost use Rattle.model.specs.Job.{first_fall};
ghost use Rattle.model.specs.Rule.{cells_in};
ghost use Rattle.cells.specs.Columns.{columns, cells_of};
ghost use Rattle.hits.specs.Hits.{column_in};
ghost use Rattle.turns.specs.Bands.{RowsRise, BandOf};

use crate::Band;
use model::Range;

// The first index whose row is not above `row`, or the number of rows: what is left is halved.
fn first_from(rows: &[u32], row: u64) -> usize
    requires { RowsRise rows.now }
    ensures before { (i : ℕ) → i < result → get_or rows.now i 0 < row }
    ensures after { (i : ℕ) → result ≤ i → i < length rows.now → row ≤ get_or rows.now i 0 }
    ensures within { result ≤ length rows.now }
{
    rows.partition_point(|r| (*r as u64) < row)
}

// Of an inverted range it is empty.
pub(crate) fn band_of(range: Range, rows: &[u32]) -> Band
    requires { RowsRise rows.now }
    ensures { BandOf range rows.now result.from result.to }
{
    let from = first_from(rows, range.top as u64);
    let end = first_from(rows, range.bottom as u64 + 1);
    if end < from {
        return Band { from, to: from };
    }
    Band { from, to: end }
}

// How many cells are in range. What the cells hold has no part in it.
pub(crate) fn cells_in(range: Range, band: Band, cols: &[u16]) -> usize
    requires { (band.from ≤ band.to) × (band.to ≤ 1024) × (band.to ≤ length cols.now) }
    ensures { (rows kinds wraps nums ats lens : List ℕ) → BandOf range rows band.from band.to
        → result ≡ length (cells_in range (cells_of (columns rows cols.now kinds wraps nums ats lens))) }
{
    let mut count: u16 = 0;
    for i in band.from..band.to {
        let col = cols[i];
        count += ((range.left <= col) & (col <= range.right)) as u16;
    }
    count as usize
}

// Whether the `gap` places from one out of range are all out of range, told by the last of them: it stands in the same row on the same side
// of the range's columns, or in the next row ahead of them.
fn jumps(range: Range, rows: &[u32], cols: &[u16], i: usize, to: usize, gap: usize) -> bool
    requires { (first_fall rows.now cols.now ≡ none) × (i < to) × (to ≤ length rows.now) × (length rows.now ≤ length cols.now)
        × (column_in range (get_or cols.now i 0) ≡ false) }
    ensures { result ≡ true → (0 < gap) × (i + gap ≤ to)
        × ((k : ℕ) → i ≤ k → k < i + gap → column_in range (get_or cols.now k 0) ≡ false) }
{
    if gap == 0 {
        return false;
    }
    if gap > to - i {
        return false;
    }
    let last = i + gap - 1;
    let down = rows[last] - rows[i];
    let past = range.right < cols[i];
    let short = cols[last] < range.left;
    ((down == 0) & (past | short)) | ((down == 1) & past & short)
}

// The next place of the band that is in range, or one ahead of it, after a place that is not: none between is. What stands `gap` places
// on is tried first, since rows often have the same columns.
pub(crate) fn next_in(
    range: Range,
    rows: &[u32],
    cols: &[u16],
    i: usize,
    to: usize,
    gap: usize,
) -> usize
    requires { (first_fall rows.now cols.now ≡ none) × (i < to) × (to ≤ length rows.now) × (length rows.now ≤ length cols.now)
        × (column_in range (get_or cols.now i 0) ≡ false) }
    ensures { (i < result) × (result ≤ to)
        × ((k : ℕ) → i ≤ k → k < result → column_in range (get_or cols.now k 0) ≡ false) }
{
    if jumps(range, rows, cols, i, to, gap) {
        return i + gap;
    }
    for j in i + 1..to {
        let col = cols[j];
        if (range.left <= col) & (col <= range.right) {
            return j;
        }
    }
    to
}

// Whether most places of a band may be in range: it is short, or the first and the last of them are. Which is told decides the way that is
// taken and no answer.
pub(crate) fn is_wide(range: Range, band: Band, cols: &[u16]) -> bool
    requires { (band.from ≤ band.to) × (band.to ≤ length cols.now) }
{
    let from = band.from;
    let to = band.to;
    if to - from < 128 {
        return true;
    }
    (range.left <= cols[from]) & (cols[to - 1] <= range.right)
}
